//! Queries of ports and handles.
ghost use Rattle.rr_protocol.specs.declared.command.Command.{Command};
ghost use Rattle.rr_protocol.specs.declared.reply.Reply.{Reply};
ghost use Rattle.std.specs.Prelude.{◌≡◌, length};
ghost use Rattle.rr_checked.specs.Answers.{replied, shown};
ghost use Rattle.rr_c.specs.Answers.{Answers, HubStep, Writes, header_written, len_written, user_header_written};

use crate::answers::{OK, done, write};
use crate::held::Held;
use crate::messages::{Header, UserHeader, header_of};
use crate::opening::{hub_in, start_of};
use rr_bytes::Id;

/// Writes whether a message would be received.
#[unsafe(no_mangle)]
pub extern "C" fn rr_has_entries(hub: &mut Held, from: &Id, has_entries: &mut bool) -> u32
    ensures { Writes (λ answer. HubStep hub.old.hub (Command.HasEntries from.now.number) (replied (Reply.Flag) answer)
        hub.new.hub) result has_entries.old has_entries.new }
{
    write(hub_in(hub).bytes.has_entries(from), has_entries)
}

/// Writes whether the other side is connected.
#[unsafe(no_mangle)]
pub extern "C" fn rr_is_connected(hub: &mut Held, handle: &Id, is_connected: &mut bool) -> u32
    ensures { Writes (λ answer. HubStep hub.old.hub (Command.IsConnected handle.now.number)
        (replied (Reply.Flag) answer) hub.new.hub) result is_connected.old is_connected.new }
{
    write(hub_in(hub).bytes.is_connected(handle), is_connected)
}

/// Writes how many queues took a request.
#[unsafe(no_mangle)]
pub extern "C" fn rr_number_of_server_connections(
    hub: &mut Held,
    pending: &Id,
    servers: &mut usize,
) -> u32
    ensures { Writes (λ answer. HubStep hub.old.hub (Command.Servers pending.now.number)
        (replied (Reply.Count) answer) hub.new.hub) result servers.old servers.new }
{
    write(hub_in(hub).bytes.servers(pending), servers)
}

/// Sets the disconnect hint.
#[unsafe(no_mangle)]
pub extern "C" fn rr_set_disconnect_hint(hub: &mut Held, pending: &Id) -> u32
    ensures { Answers {Value = Unit {0}} (λ answer.
        HubStep hub.old.hub (Command.SetHint pending.now.number) (replied (λ done. Reply.Done) answer) hub.new.hub)
        result }
{
    done(hub_in(hub).bytes.set_hint(pending))
}

/// Writes whether the disconnect hint is set.
#[unsafe(no_mangle)]
pub extern "C" fn rr_has_disconnect_hint(hub: &mut Held, active: &Id, has_hint: &mut bool) -> u32
    ensures { Writes (λ answer. HubStep hub.old.hub (Command.HasHint active.now.number) (replied (Reply.Flag) answer)
        hub.new.hub) result has_hint.old has_hint.new }
{
    write(hub_in(hub).bytes.has_hint(active), has_hint)
}

/// Writes the port that a message came from.
#[unsafe(no_mangle)]
pub extern "C" fn rr_origin(hub: &mut Held, message: &Id, port: &mut u64) -> u32
    ensures { Writes (λ answer. HubStep hub.old.hub (Command.Origin message.now.number) (replied (Reply.Id) answer)
        hub.new.hub) result port.old port.new }
{
    write(hub_in(hub).bytes.origin(message), port)
}

/// Writes the address of the bytes of a message.
#[unsafe(no_mangle)]
pub extern "C" fn rr_payload(
    hub: &mut Held,
    message: &Id,
    at: &mut *const u8,
    len: &mut usize,
) -> u32
    ensures { Answers (λ answer. HubStep hub.old.hub (Command.Payload message.now.number)
        (replied Reply.Payload answer) hub.new.hub × (len.new ≡ len_written len.old answer)) result }
{
    match hub_in(hub).bytes.payload(message) {
        Ok(payload) => {
            *len = payload.len();
            *at = start_of(payload);
            OK
        }
        Err(refusal) => refusal.code(),
    }
}

/// Writes a message's header.
#[unsafe(no_mangle)]
pub extern "C" fn rr_header(hub: &mut Held, message: &Id, header: &mut Header) -> u32
    ensures { Answers (λ answer. HubStep hub.old.hub (Command.Header message.now.number) (replied shown answer)
        hub.new.hub × (header.new ≡ header_written header.old answer)) result }
{
    match hub_in(hub).bytes.header(message) {
        Ok(of_message) => {
            *header = header_of(of_message);
            OK
        }
        Err(refusal) => refusal.code(),
    }
}

/// Writes a message's user header.
#[unsafe(no_mangle)]
pub extern "C" fn rr_user_header(hub: &mut Held, message: &Id, header: &mut UserHeader) -> u32
    ensures { Answers (λ answer. HubStep hub.old.hub (Command.UserHeader message.now.number)
        (replied Reply.UserHeader answer) hub.new.hub × (header.new ≡ user_header_written header.old answer)) result }
{
    match hub_in(hub).bytes.user_header(message) {
        Ok(bytes) => {
            *header = UserHeader { bytes };
            OK
        }
        Err(refusal) => refusal.code(),
    }
}
