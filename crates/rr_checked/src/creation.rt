//! Creating ports.
ghost use Rattle.std.specs.Prelude.{◌≡◌, IsTrue};
ghost use Rattle.rr_slots.specs.Families.{takes_len};
ghost use Rattle.rr_protocol.specs.declared.command.Command.{Command};
ghost use Rattle.rr_protocol.specs.declared.reply.Reply.{Reply};
ghost use Rattle.rr_protocol.specs.Step.{Step, client_settings, server_settings};
ghost use Rattle.rr_checked.specs.Answers.{replied};

use crate::refusal::Refusal;
use rr_hub::Core;
use rr_protocol::{AllocationStrategy, BackpressureFn, ClientSettings, ServerSettings};
use rr_slots::{Body, Family, WriteBody};

/// Creates a client. After iceoryx2's `PortFactoryClient::create`.
///
/// # Errors
///
/// `Client` as the call of the factory.
pub fn create_client<
    T: Copy + Default,
    B: WriteBody<Item = T>,
    H: Copy + Default,
    K: BackpressureFn,
>(core: &mut Core<B, H, B, H, K>, settings: ClientSettings<K>) -> Result<u64, Refusal>
    ensures { Step K.action T.is_default H.is_default B.family core.old (Command.CreateClient settings)
        (replied Reply.Created result) core.new }
{
    match core.create_client(client_settings(B::family(), settings)) {
        Ok(number) => Ok(number),
        Err(error) => Err(Refusal::Client(error)),
    }
}

/// Creates a server. After iceoryx2's `PortFactoryServer::create`.
///
/// # Errors
///
/// `Server` as the call of the factory.
pub fn create_server<
    T: Copy + Default,
    B: WriteBody<Item = T>,
    H: Copy + Default,
    K: BackpressureFn,
>(core: &mut Core<B, H, B, H, K>, settings: ServerSettings<K>) -> Result<u64, Refusal>
    ensures { Step K.action T.is_default H.is_default B.family core.old (Command.CreateServer settings)
        (replied Reply.Created result) core.new }
{
    match core.create_server(server_settings(B::family(), settings)) {
        Ok(number) => Ok(number),
        Err(error) => Err(Refusal::Server(error)),
    }
}

/// A client's settings as a family reads them: a typed message has one element.
fn client_settings<K: Drop>(family: Family, settings: ClientSettings<K>) -> ClientSettings<K>
    ensures read { result ≡ client_settings family settings }
    ensures len { IsTrue (takes_len family result.initial_max_slice_len) }
{
    match family {
        Family::Typed => ClientSettings {
            strategy: settings.strategy,
            initial_max_slice_len: 1,
            allocation_strategy: AllocationStrategy::Static,
            pool: settings.pool,
            handler: settings.handler,
        },
        Family::Sliced => settings,
    }
}

/// A server's settings as a family reads them: a typed message has one element.
fn server_settings<K: Drop>(family: Family, settings: ServerSettings<K>) -> ServerSettings<K>
    ensures read { result ≡ server_settings family settings }
    ensures len { IsTrue (takes_len family result.initial_max_slice_len) }
{
    match family {
        Family::Typed => ServerSettings {
            strategy: settings.strategy,
            initial_max_slice_len: 1,
            allocation_strategy: AllocationStrategy::Static,
            pool: settings.pool,
            handler: settings.handler,
            loans: settings.loans,
        },
        Family::Sliced => settings,
    }
}
