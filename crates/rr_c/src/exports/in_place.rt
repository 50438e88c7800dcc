//! Messages that are written and read in place.
ghost use Rattle.std.specs.Prelude.{◌≡◌, ◌⊎◌, IsSomeAnd, Option, Result, length};
ghost use Rattle.rr_protocol.specs.Refusals.{content_in};
ghost use Rattle.rr_protocol.specs.State.{handle_at};
ghost use Rattle.rr_bytes.specs.declared.id.Id.{Id as Named};
ghost use Rattle.rr_checked.specs.declared.refusal.Refusal.{Refusal};
ghost use Rattle.rr_c.specs.Answers.{HubLoansInPlace, HubReceives, Writes, received_code, was_received};

use crate::answers::{NOTHING, OK};
use crate::held::Held;
use crate::opening::{hub_in, start_of};
use rr_bytes::Id;

/// Loans a message that is ready to send, and writes the address of its bytes, which C writes in place: the clauses
/// say that the bytes exist, and nothing about their values.
#[unsafe(no_mangle)]
pub extern "C" fn rr_loan_in_place(
    hub: &mut Held,
    from: &Id,
    len: usize,
    message: &mut Id,
    at: &mut *mut u8,
) -> u32
    ensures loans { Writes (λ answer. HubLoansInPlace hub.old.hub from.now.number len answer hub.new.hub) result
        message.old message.new }
    ensures len { result ≡ 0 → IsSomeAnd (handle_at hub.new.hub.bytes message.new.number)
        (λ handle. length (content_in handle).elements ≡ len) }
{
    match hub_in(hub).bytes.loan_in_place(from, len) {
        Ok(id) => match hub_in(hub).bytes.payload(&id) {
            Ok(payload) => {
                *message = id;
                *at = start_of(payload) as *mut u8;
                OK
            }
            Err(_) => unreachable!(),
        },
        Err(refusal) => refusal.code(),
    }
}

/// Receives a request or a response, and writes the address of its bytes.
#[unsafe(no_mangle)]
pub extern "C" fn rr_receive_in_place(
    hub: &mut Held,
    from: &Id,
    received: &mut Id,
    at: &mut *const u8,
    len: &mut usize,
) -> u32
    ensures receives { (answer : Result (Option Named) Refusal)
        × HubReceives hub.old.hub from.now.number answer hub.new.hub × (result ≡ received_code answer)
        × (received.new ≡ was_received received.old answer) }
    ensures len { result ≡ 0 → IsSomeAnd (handle_at hub.new.hub.bytes received.new.number)
        (λ handle. length (content_in handle).elements ≡ len.new) }
    ensures refused { (result ≡ 0) ⊎ (len.new ≡ len.old) }
{
    match hub_in(hub).bytes.receive_in_place(from) {
        Ok(Some(id)) => match hub_in(hub).bytes.payload(&id) {
            Ok(payload) => {
                *received = id;
                *len = payload.len();
                *at = start_of(payload);
                OK
            }
            Err(_) => unreachable!(),
        },
        Ok(None) => NOTHING,
        Err(refusal) => refusal.code(),
    }
}
