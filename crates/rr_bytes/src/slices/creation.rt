//! Creating and releasing.
ghost use Rattle.rr_slots.specs.declared.family.Family.TheVariants.{Sliced};
ghost use Rattle.rr_protocol.specs.declared.command.Command.{Command};
ghost use Rattle.rr_protocol.specs.declared.reply.Reply.{Reply};
ghost use Rattle.rr_protocol.specs.Step.{Step};
ghost use Rattle.rr_checked.specs.Answers.{replied};

use crate::id::Id;
use crate::slices::Slices;
use rr_checked::Refusal;
use rr_hub::{BackpressureFn, ClientSettings, ServerSettings};

impl<T: Copy + Default, H: Copy + Default, K: BackpressureFn> Slices<T, H, K> {
    /// Creates a client. After iceoryx2's `PortFactoryClient::create`.
    ///
    /// # Errors
    ///
    /// `Client` as the call of the factory.
    pub fn create_client(&mut self, settings: ClientSettings<K>) -> Result<Id, Refusal>
        ensures { Step K.action T.is_default H.is_default Sliced self.old (Command.CreateClient settings)
            (replied (λ id. Reply.Created id.number) result) self.new }
    {
        let number = rr_checked::create_client(&mut self.core, settings)?;
        Ok(Id::of_port(number))
    }

    /// Creates a server. After iceoryx2's `PortFactoryServer::create`.
    ///
    /// # Errors
    ///
    /// `Server` as the call of the factory.
    pub fn create_server(&mut self, settings: ServerSettings<K>) -> Result<Id, Refusal>
        ensures { Step K.action T.is_default H.is_default Sliced self.old (Command.CreateServer settings)
            (replied (λ id. Reply.Created id.number) result) self.new }
    {
        let number = rr_checked::create_server(&mut self.core, settings)?;
        Ok(Id::of_port(number))
    }

    /// Releases a port or a handle. After iceoryx2's drop of each.
    ///
    /// # Errors
    ///
    /// `Unknown`.
    pub fn release(&mut self, id: &Id) -> Result<(), Refusal>
        ensures { Step K.action T.is_default H.is_default Sliced self.old (Command.Release id.now.number)
            (replied (λ done. Reply.Done) result) self.new }
    {
        rr_checked::release(&mut self.core, &id.handle())
    }

    /// Changes nothing: a port is connected with all ports of the other side as soon as both are created. After
    /// iceoryx2's `UpdateConnections::update_connections`.
    ///
    /// # Errors
    ///
    /// `Unknown` and `WrongKind`.
    pub fn update_connections(&self, id: &Id) -> Result<(), Refusal>
        ensures { Step K.action T.is_default H.is_default Sliced self.now (Command.UpdateConnections id.now.number)
            (replied (λ done. Reply.Done) result) self.now }
    {
        rr_checked::update_connections(&self.core, &id.handle())
    }
}
