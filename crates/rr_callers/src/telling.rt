//! A message that needs no answer.
#![tactic(auto, using(rr_ports::proofs::Frames::callers), unfolding(rr_ports::specs::Facts::Keeps, rr_ports::specs::Facts::IsFree))]

ghost use Rattle.std.specs.Prelude.{◌<◌};
ghost use Rattle.rr_protocol.specs.declared.kind.Kind.TheVariants as kind;
ghost use Rattle.rr_ports.specs.Facts.{Names, numbers_left};

use rr_ports::RequestSendError;
use rr_ports::typed::{Client, Hub};

/// Sends a number, and waits for nothing.
///
/// # Errors
///
/// As `Client::send_copy`.
pub fn tell(
    hub: &mut Hub<u64, u64, u64, u64>,
    client: &Client<u64>,
    value: u64,
) -> Result<(), RequestSendError>
    requires client { Names hub.old client.now kind.Client }
    requires numbers { 0 < numbers_left hub.old }
{
    let pending = client.send_copy(hub, value)?;
    pending.release(hub);
    Ok(())
}
