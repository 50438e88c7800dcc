//! How many loans are granted, by the server's settings and by the pools.
#![tactic(auto, using(rr_ports::proofs::Frames::callers), unfolding(rr_ports::specs::Facts::Keeps, rr_ports::specs::Facts::IsFree))]

ghost use Rattle.std.specs.Prelude.{◌<◌, ◌≤◌, ◌+◌, []};
ghost use Rattle.rr_protocol.specs.declared.kind.Kind.TheVariants as kind;
ghost use Rattle.rr_ports.specs.Facts.{Keeps, Names, numbers_left};

use super::fixtures::{SETUP, Setup, answered, connect, end, heard};
use rr_callers::frames::{Service, ask};
use rr_ports::typed::{ActiveRequest, Client, Server};
use rr_ports::{Error, LoanError};

/// Loans a request and releases it. Returns why it was refused, if it was.
fn request_refusal(hub: &mut Service, client: &Client<u64>) -> Option<LoanError>
    requires client { Names hub.old client.now kind.Client }
    requires number { 0 < numbers_left hub.old }
    ensures keeps { Keeps [] hub.old hub.new }
    ensures numbers { numbers_left hub.old ≤ numbers_left hub.new + 1 }
{
    match client.loan_uninit(hub) {
        Ok(request) => {
            request.release(hub);
            None
        }
        Err(error) => Some(error),
    }
}

/// Loans a response and releases it. Returns why it was refused, if it was.
fn refusal(hub: &mut Service, active: &ActiveRequest<u64>) -> Option<LoanError>
    requires active { Names hub.old active.now kind.ActiveRequest }
    requires number { 0 < numbers_left hub.old }
    ensures { Keeps [] hub.old hub.new }
{
    match active.loan_uninit(hub) {
        Ok(response) => {
            response.release(hub);
            None
        }
        Err(error) => Some(error),
    }
}

/// Why a loan of a request was refused, and two loans of responses at one time, if they were.
type Refusals = (Option<LoanError>, Option<LoanError>, Option<LoanError>);

/// Loans two responses at one time and releases them. Returns why each was refused, if it was.
fn refusals(
    hub: &mut Service,
    active: &ActiveRequest<u64>,
) -> (Option<LoanError>, Option<LoanError>)
    requires active { Names hub.old active.now kind.ActiveRequest }
    requires numbers { 1 < numbers_left hub.old }
    ensures { Keeps [] hub.old hub.new }
{
    match active.loan_uninit(hub) {
        Ok(response) => {
            let second = refusal(hub, active);
            response.release(hub);
            (None, second)
        }
        Err(error) => (Some(error), None),
    }
}

/// Sends a request, and while it is held loans another one, and responses to it. Returns `None` if it was not
/// received.
fn refused(
    hub: &mut Service,
    client: &Client<u64>,
    server: &Server<u64>,
) -> Result<Option<Refusals>, Error>
    requires client { Names hub.old client.now kind.Client }
    requires server { Names hub.old server.now kind.Server }
    requires numbers { 4 < numbers_left hub.old }
    ensures { Keeps [] hub.old hub.new }
{
    let pending = ask(hub, client, 123)?;
    let request = request_refusal(hub, client);
    let refused = match heard(hub, server) {
        Ok(Some(active)) => {
            let (first, second) = refusals(hub, &active);
            answered(hub, active);
            Some((request, first, second))
        }
        _ => None,
    };
    end(hub, pending);
    Ok(refused)
}

/// A server grants one loan for each request, unless it is set to more; 0 counts as 1. A pool has one slot at least,
/// and here each is held by a request and by a response; and at most the worst case, which is 11 requests and 34
/// responses: for more slots no memory would be found.
#[test]
fn loans_are_counted_per_request_and_by_slots(rt: HostRuntime) {
    let exceeds = Some(LoanError::ExceedsMaxLoans);
    let no_slot = Some(LoanError::OutOfMemory);
    for (slots, loans, request, second) in [
        (11, None, None, exceeds),
        (12, None, None, exceeds),
        (34, None, None, exceeds),
        (35, None, None, exceeds),
        (usize::MAX, None, None, exceeds),
        (usize::MAX, Some(0), None, exceeds),
        (usize::MAX, Some(2), None, None),
        (0, Some(2), no_slot, no_slot),
    ] {
        let setup = Setup {
            slots,
            loans,
            ..SETUP
        };
        let mut ports = connect(&rt, rt.alloc(), setup);
        let refused = refused(&mut ports.hub, &ports.client, &ports.server);
        ports.end();
        let wanted = Ok(Some((request, None, second)));
        assert_eq!(rt; refused, wanted, "{slots} slots");
    }
}
