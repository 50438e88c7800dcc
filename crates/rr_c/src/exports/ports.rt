//! Ports.
ghost use Rattle.rr_protocol.specs.declared.command.Command.{Command};
ghost use Rattle.rr_protocol.specs.declared.reply.Reply.{Reply};
ghost use Rattle.rr_checked.specs.Answers.{replied};
ghost use Rattle.rr_c.specs.Answers.{Answers, CreatesPort, HubStep, IsStrategyWritten, Writes};
ghost use Rattle.rr_c.specs.Settings.{client_settings_in, server_settings_in};

use crate::answers::{INVALID_SETTING, OK, done, write};
use crate::held::Held;
use crate::opening::hub_in;
use crate::settings::{self, ClientOptions, ServerOptions};
use rr_bytes::Id;

/// Creates a client.
#[unsafe(no_mangle)]
pub extern "C" fn rr_client_create(hub: &mut Held, settings: &ClientOptions, client: &mut Id) -> u32
    ensures { CreatesPort (λ settings n before after.
        Writes (λ answer. HubStep hub.old.hub (Command.CreateClient settings)
        (replied (λ id. Reply.Created id.number) answer) hub.new.hub) n before after)
        (client_settings_in settings.now) hub.old.hub result client.old client.new hub.new.hub }
{
    match settings::client(settings) {
        Some(settings) => write(hub_in(hub).bytes.create_client(settings), client),
        None => INVALID_SETTING,
    }
}

/// Creates a server.
#[unsafe(no_mangle)]
pub extern "C" fn rr_server_create(hub: &mut Held, settings: &ServerOptions, server: &mut Id) -> u32
    ensures { CreatesPort (λ settings n before after.
        Writes (λ answer. HubStep hub.old.hub (Command.CreateServer settings)
        (replied (λ id. Reply.Created id.number) answer) hub.new.hub) n before after)
        (server_settings_in settings.now) hub.old.hub result server.old server.new hub.new.hub }
{
    match settings::server(settings) {
        Some(settings) => write(hub_in(hub).bytes.create_server(settings), server),
        None => INVALID_SETTING,
    }
}

/// Changes nothing, as the call of a port.
#[unsafe(no_mangle)]
pub extern "C" fn rr_update_connections(hub: &mut Held, port: &Id) -> u32
    ensures { Answers {Value = Unit {0}} (λ answer.
        HubStep hub.old.hub (Command.UpdateConnections port.now.number) (replied (λ done. Reply.Done) answer)
        hub.new.hub) result }
{
    done(hub_in(hub).bytes.update_connections(port))
}

/// Writes a port's initial length.
#[unsafe(no_mangle)]
pub extern "C" fn rr_initial_max_slice_len(hub: &mut Held, port: &Id, len: &mut usize) -> u32
    ensures { Writes (λ answer. HubStep hub.old.hub (Command.MaxSliceLen port.now.number)
        (replied (Reply.Count) answer) hub.new.hub) result len.old len.new }
{
    write(hub_in(hub).bytes.max_slice_len(port), len)
}

/// Writes a port's strategy.
#[unsafe(no_mangle)]
pub extern "C" fn rr_backpressure_strategy(hub: &mut Held, port: &Id, strategy: &mut u32) -> u32
    ensures { Answers (λ answer. HubStep hub.old.hub (Command.Strategy port.now.number)
        (replied Reply.Strategy answer) hub.new.hub × IsStrategyWritten strategy.old answer strategy.new) result }
{
    match hub_in(hub).bytes.strategy(port) {
        Ok(of_port) => {
            *strategy = settings::number_of(of_port);
            OK
        }
        Err(refusal) => refusal.code(),
    }
}
