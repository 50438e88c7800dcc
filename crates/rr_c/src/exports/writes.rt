//! Writing messages before they are sent.
ghost use Rattle.std.specs.Prelude.{◌≡◌, ◌⊎◌, IsSomeAnd, Result, length};
ghost use Rattle.rr_protocol.specs.declared.command.Command.{Command};
ghost use Rattle.rr_protocol.specs.declared.reply.Reply.{Reply};
ghost use Rattle.rr_protocol.specs.Refusals.{content_in};
ghost use Rattle.rr_protocol.specs.State.{handle_at};
ghost use Rattle.rr_checked.specs.Answers.{replied};
ghost use Rattle.rr_bytes.specs.declared.slices.writes.WriteRefusal.{WriteRefusal as NotWritten};
ghost use Rattle.rr_bytes.specs.Completing.{Completes};
ghost use Rattle.rr_bytes.specs.Writes.{FillsAll, WritesAll, write_code};
ghost use Rattle.rr_c.specs.Answers.{Answers, HubStep, Writes, answer_code};

use crate::answers::{OK, done, write, wrote};
use crate::held::Held;
use crate::messages::UserHeader;
use crate::opening::{hub_in, start_of};
use rr_bytes::Id;

/// Fills a message.
#[unsafe(no_mangle)]
pub extern "C" fn rr_fill(hub: &mut Held, message: &Id, byte: u8) -> u32
    ensures { Answers (λ answer. FillsAll hub.old.hub.bytes message.now.number byte answer hub.new.hub.bytes) result }
{
    done(hub_in(hub).bytes.fill(message, byte))
}

/// Copies bytes to a message.
#[unsafe(no_mangle)]
pub extern "C" fn rr_write_from_slice(hub: &mut Held, message: &Id, payload: &[u8]) -> u32
    ensures { (answer : Result (Unit {0}) NotWritten)
        × WritesAll hub.old.hub.bytes message.now.number payload.now answer hub.new.hub.bytes
        × (result ≡ answer_code write_code answer) }
{
    wrote(hub_in(hub).bytes.write(message, payload))
}

/// Makes a message ready to send, and writes the address of its bytes, which C writes in place: the clauses say that
/// the bytes exist, and nothing about their values.
#[unsafe(no_mangle)]
pub extern "C" fn rr_payload_mut(
    hub: &mut Held,
    message: &Id,
    at: &mut *mut u8,
    len: &mut usize,
) -> u32
    ensures completes { Answers (λ answer. Completes hub.old.hub.bytes message.now.number answer hub.new.hub.bytes)
        result }
    ensures len { result ≡ 0 → IsSomeAnd (handle_at hub.new.hub.bytes message.now.number)
        (λ handle. length (content_in handle).elements ≡ len.new) }
    ensures refused { (result ≡ 0) ⊎ (len.new ≡ len.old) }
{
    match hub_in(hub).bytes.complete(message) {
        Ok(()) => match hub_in(hub).bytes.payload(message) {
            Ok(payload) => {
                *len = payload.len();
                *at = start_of(payload) as *mut u8;
                OK
            }
            Err(_) => unreachable!(),
        },
        Err(refusal) => refusal.code(),
    }
}

/// Appends a byte.
#[unsafe(no_mangle)]
pub extern "C" fn rr_push(hub: &mut Held, message: &Id, byte: u8, had_room: &mut bool) -> u32
    ensures { Writes (λ answer. HubStep hub.old.hub (Command.Push message.now.number byte)
        (replied (Reply.Flag) answer) hub.new.hub) result had_room.old had_room.new }
{
    write(hub_in(hub).bytes.push(message, byte), had_room)
}

/// Makes a complete message ready to send.
#[unsafe(no_mangle)]
pub extern "C" fn rr_assume_init(hub: &mut Held, message: &Id) -> u32
    ensures { Answers {Value = Unit {0}} (λ answer.
        HubStep hub.old.hub (Command.AssumeInit message.now.number) (replied (λ done. Reply.Done) answer) hub.new.hub)
        result }
{
    done(hub_in(hub).bytes.assume_init(message))
}

/// Replaces a byte.
#[unsafe(no_mangle)]
pub extern "C" fn rr_set(
    hub: &mut Held,
    message: &Id,
    index: usize,
    byte: u8,
    was_there: &mut bool,
) -> u32
    ensures { Writes (λ answer. HubStep hub.old.hub (Command.Set message.now.number index byte)
        (replied (Reply.Flag) answer) hub.new.hub) result was_there.old was_there.new }
{
    write(hub_in(hub).bytes.set(message, index, byte), was_there)
}

/// Replaces the user header.
#[unsafe(no_mangle)]
pub extern "C" fn rr_set_user_header(hub: &mut Held, message: &Id, header: &UserHeader) -> u32
    ensures { Answers {Value = Unit {0}} (λ answer.
        HubStep hub.old.hub (Command.SetUserHeader message.now.number header.now.bytes)
        (replied (λ done. Reply.Done) answer) hub.new.hub) result }
{
    done(hub_in(hub).bytes.set_user_header(message, header.bytes))
}
