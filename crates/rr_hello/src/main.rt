//! A client asks, a server answers, and the program prints the answer.
#![tactic(auto, using(rr_ports::proofs::Frames::callers), unfolding(rr_ports::specs::Facts::Keeps, rr_ports::specs::Facts::IsFree))]

ghost use Rattle.std.specs.Prelude.{◌<◌, []};
ghost use Rattle.rr_protocol.specs.declared.kind.Kind.TheVariants as kind;
ghost use Rattle.rr_ports.specs.Facts.{Keeps, Names, numbers_left};

use rr_ports::typed::{Client, Hub, Server};
use rr_ports::{Limits, UniqueNodeId};

/// Numbers with numbers as user headers, both ways.
type Service = Hub<u64, u64, u64, u64>;

/// Answers a request with twice its number.
fn answer(hub: &mut Service, server: &Server<u64>)
    requires server { Names hub.old server.now kind.Server }
    requires numbers { 1 < numbers_left hub.old }
    ensures { Keeps [] hub.old hub.new }
{
    if let Ok(Some(active)) = server.receive(hub) {
        let asked = *active.payload(hub);
        let _ = active.send_copy(hub, asked.wrapping_mul(2));
        active.release(hub);
    }
}

/// Asks for the double of a number.
fn double(hub: &mut Service, client: &Client<u64>, server: &Server<u64>, value: u64) -> Option<u64>
    requires client { Names hub.old client.now kind.Client }
    requires server { Names hub.old server.now kind.Server }
    requires numbers { 2 < numbers_left hub.old }
    ensures { Keeps [] hub.old hub.new }
{
    let Ok(pending) = client.send_copy(hub, value) else {
        return None;
    };
    answer(hub, server);
    let doubled = pending.receive_copy(hub);
    pending.release(hub);
    doubled.unwrap_or(None)
}

fn main(rt: HostRuntime) -> anyhow::Result<()> {
    let mut hub: Service = Hub::new(rt.alloc(), Limits::default(), UniqueNodeId(0))?;
    let client = hub.client_builder().create(&mut hub)?;
    let doubled = match hub.server_builder().create(&mut hub) {
        Ok(server) => {
            let doubled = double(&mut hub, &client, &server, 21);
            server.release(&mut hub);
            doubled
        }
        Err(_) => None,
    };
    client.release(&mut hub);
    println!(rt; "{doubled:?}")?;
    Ok(())
}
