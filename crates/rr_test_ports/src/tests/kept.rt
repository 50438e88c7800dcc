//! Values that are written where they lie.
#![tactic(auto, using(rr_ports::proofs::Frames::callers), unfolding(rr_ports::specs::Facts::Keeps, rr_ports::specs::Facts::IsFree))]

ghost use Rattle.std.specs.Prelude.{◌<◌, ◌≤◌, ◌+◌, []};
ghost use Rattle.rr_protocol.specs.declared.kind.Kind.TheVariants as kind;
ghost use Rattle.rr_ports.specs.Facts.{Keeps, Names, numbers_left};

use super::fixtures::LIMITS;
use rr_ports::kept::{Client, Hub};
use rr_ports::{LoanError, UniqueNodeId};

/// A value that a caller would rather not move.
type Page = [u64; 4];

/// A service that answers pages with pages.
type Pages = Hub<Page, u64, Page, u64>;

/// Loans a request, writes a word of its page in place, and releases it. Returns the old word.
fn rewritten(
    hub: &mut Pages,
    client: &Client<Page>,
    index: usize,
    word: u64,
) -> Result<Page, LoanError>
    requires client { Names hub.old client.now kind.Client }
    requires number { 0 < numbers_left hub.old }
    ensures keeps { Keeps [] hub.old hub.new }
    ensures numbers { numbers_left hub.old ≤ numbers_left hub.new + 1 }
{
    let request = client.loan_kept(hub)?;
    let before = *request.payload(hub);
    request.update(hub, |page: &mut Page| {
        if let Some(at) = page.get_mut(index) {
            *at = word;
        }
    });
    request.release(hub);
    Ok(before)
}

/// A slot has a default value at first, and then the value that was written last. The part that a write leaves out is
/// unchanged.
#[test]
fn a_value_stays_in_its_slot(rt: HostRuntime) {
    let mut hub = Pages::new(rt.alloc(), LIMITS, UniqueNodeId(7)).expect(&rt, "a hub");
    let clients = hub
        .client_builder()
        .override_request_preallocation(|_: usize| 1);
    let client = clients.create(&mut hub).expect(&rt, "a client");
    let told = (
        rewritten(&mut hub, &client, 0, 7),
        rewritten(&mut hub, &client, 3, 8),
        rewritten(&mut hub, &client, 1, 9),
    );
    client.release(&mut hub);
    assert_eq!(rt; told, (Ok([0; 4]), Ok([7, 0, 0, 0]), Ok([7, 0, 0, 8])));
}
