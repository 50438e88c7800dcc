//! Messages: loans, sends and releases.
ghost use Rattle.rr_protocol.specs.declared.command.Command.{Command};
ghost use Rattle.rr_protocol.specs.declared.reply.Reply.{Reply};
ghost use Rattle.rr_checked.specs.Answers.{replied, sent};
ghost use Rattle.std.specs.Prelude.{◌≡◌, Result};
ghost use Rattle.rr_checked.specs.Codes.{code};
ghost use Rattle.rr_checked.specs.declared.refusal.Refusal.{Refusal};
ghost use Rattle.rr_bytes.specs.declared.slices.copies.SentCopy.{SentCopy as SentCopied};
ghost use Rattle.rr_c.specs.Answers.{Answers, HubSendsCopy, HubStep, HubTellsSendRefusal, Writes, answer_code, copy_named, copy_taken, taken, why_written};

use crate::answers::{OK, done, write};
use crate::held::Held;
use crate::opening::hub_in;
use rr_bytes::{Id, Sent, SentCopy};

/// Loans a message.
#[unsafe(no_mangle)]
pub extern "C" fn rr_loan_slice_uninit(
    hub: &mut Held,
    from: &Id,
    len: usize,
    message: &mut Id,
) -> u32
    ensures { Writes (λ answer. HubStep hub.old.hub (Command.Loan from.now.number len)
        (replied (λ id. Reply.Loaned id.number) answer) hub.new.hub) result message.old message.new }
{
    write(hub_in(hub).bytes.loan(from, len), message)
}

/// Writes whether no full queue would refuse a send.
#[unsafe(no_mangle)]
pub extern "C" fn rr_is_deliverable(hub: &mut Held, message: &Id, is_deliverable: &mut bool) -> u32
    ensures { Writes (λ answer. HubStep hub.old.hub (Command.IsDeliverable message.now.number)
        (replied (Reply.Flag) answer) hub.new.hub) result is_deliverable.old is_deliverable.new }
{
    write(hub_in(hub).bytes.is_deliverable(message), is_deliverable)
}

/// Writes the code with which a send would refuse a message now, or 0.
#[unsafe(no_mangle)]
pub extern "C" fn rr_send_refusal(hub: &mut Held, message: &Id, why: &mut u32) -> u32
    ensures tells { Answers (λ answer. HubTellsSendRefusal hub.old.hub message.now.number answer
        × (why.new ≡ why_written why.old answer)) result }
    ensures hub { hub.new.hub ≡ hub.old.hub }
{
    match hub_in(hub).bytes.send_refusal(message) {
        Ok(Some(refusal)) => {
            *why = refusal.code();
            OK
        }
        Ok(None) => {
            *why = OK;
            OK
        }
        Err(refusal) => refusal.code(),
    }
}

/// Releases a port or a handle.
#[unsafe(no_mangle)]
pub extern "C" fn rr_release(hub: &mut Held, id: &Id) -> u32
    ensures { Answers {Value = Unit {0}} (λ answer.
        HubStep hub.old.hub (Command.Release id.now.number) (replied (λ done. Reply.Done) answer) hub.new.hub) result }
{
    done(hub_in(hub).bytes.release(id))
}

/// Sends a message.
#[unsafe(no_mangle)]
pub extern "C" fn rr_send(hub: &mut Held, message: &Id, servers: &mut usize) -> u32
    ensures { Answers (λ answer. HubStep hub.old.hub (Command.Send message.now.number)
        (replied (sent message.now.number) answer) hub.new.hub × (servers.new ≡ taken servers.old answer)) result }
{
    match hub_in(hub).bytes.send(message) {
        Ok(Sent::Request(took)) => {
            *servers = took;
            OK
        }
        Ok(Sent::Response) => {
            *servers = 0;
            OK
        }
        Err(refusal) => refusal.code(),
    }
}

/// Loans a message, copies bytes to it and sends it.
#[unsafe(no_mangle)]
pub extern "C" fn rr_send_copy(
    hub: &mut Held,
    from: &Id,
    payload: &[u8],
    message: &mut Id,
    servers: &mut usize,
) -> u32
    ensures { (answer : Result SentCopied Refusal)
        × HubSendsCopy hub.old.hub from.now.number payload.now answer hub.new.hub × (result ≡ answer_code code answer)
        × (message.new ≡ copy_named message.old answer) × (servers.new ≡ copy_taken servers.old answer) }
{
    match hub_in(hub).bytes.send_copy(from, payload) {
        Ok(SentCopy::Request(id, took)) => {
            *message = id;
            *servers = took;
            OK
        }
        Ok(SentCopy::Response(id)) => {
            *message = id;
            *servers = 0;
            OK
        }
        Err(refusal) => refusal.code(),
    }
}
