//! Receives.
ghost use Rattle.std.specs.Prelude.{◌≡◌, Option, Result};
ghost use Rattle.rr_bytes.specs.declared.id.Id.{Id as Named};
ghost use Rattle.rr_checked.specs.declared.refusal.Refusal.{Refusal};
ghost use Rattle.rr_c.specs.Answers.{HubReceives, received_code, was_received};

use crate::answers::{NOTHING, OK};
use crate::held::Held;
use crate::opening::hub_in;
use rr_bytes::Id;

/// Receives a request or a response.
#[unsafe(no_mangle)]
pub extern "C" fn rr_receive(hub: &mut Held, from: &Id, received: &mut Id) -> u32
    ensures { (answer : Result (Option Named) Refusal) × HubReceives hub.old.hub from.now.number answer hub.new.hub
        × (result ≡ received_code answer) × (received.new ≡ was_received received.old answer) }
{
    match hub_in(hub).bytes.receive(from) {
        Ok(Some(id)) => {
            *received = id;
            OK
        }
        Ok(None) => NOTHING,
        Err(refusal) => refusal.code(),
    }
}
