//! A server that answers queued requests.
#![tactic(auto, using(rr_ports::proofs::Frames::callers), unfolding(rr_ports::specs::Facts::Keeps, rr_ports::specs::Facts::IsFree))]

ghost use Rattle.std.specs.Prelude.{◌<◌, []};
ghost use Rattle.rr_protocol.specs.declared.kind.Kind.TheVariants as kind;
ghost use Rattle.rr_ports.specs.Facts.{Keeps, Names, numbers_left};

use crate::frames::Service;
use rr_ports::ReceiveError;
use rr_ports::typed::Server;

/// Answers the oldest request with the double of its number, if there is a request, and releases it. Returns whether
/// there was one.
///
/// # Errors
///
/// As `Server::receive`.
fn is_served(hub: &mut Service, server: &Server<u64>) -> Result<bool, ReceiveError>
    requires server { Names hub.old server.now kind.Server }
    requires numbers { 1 < numbers_left hub.old }
    ensures { Keeps [] hub.old hub.new }
{
    let Some(active) = server.receive(hub)? else {
        return Ok(false);
    };
    let asked = *active.payload(hub);
    // A client whose queue is full misses this answer.
    let _ = active.send_copy(hub, asked.wrapping_mul(2));
    active.release(hub);
    Ok(true)
}

/// Answers requests while there are any and the hub has numbers for one more and its answer. Returns how many
/// requests were received.
///
/// # Errors
///
/// As `Server::receive`. Requests that were answered before stay answered.
pub fn serve(hub: &mut Service, server: &Server<u64>) -> Result<u64, ReceiveError>
    requires { Names hub.old server.now kind.Server }
    ensures { Keeps [] hub.old hub.new }
{
    for served in 0..u64::MAX {
        if hub.numbers_left() < 2 || !is_served(hub, server)? {
            return Ok(served);
        }
    }
    Ok(u64::MAX)
}
