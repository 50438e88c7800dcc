//! The number that a command names.
ghost use Rattle.std.specs.Prelude.{◌≡◌};
ghost use Rattle.rr_protocol.specs.Refusals.{number_in};

use rr_protocol::Command;

/// Returns the number of the port or the handle that a command names. Returns `None` for a creation.
pub(crate) fn number_in<T, H, K>(command: &Command<T, H, K>) -> Option<u64>
    ensures { result ≡ number_in command.now }
{
    match command {
        Command::CreateClient(_) | Command::CreateServer(_) => None,
        Command::Loan(number, _)
        | Command::LoanDefault(number, _)
        | Command::SendCopy(number, _)
        | Command::Push(number, _)
        | Command::Set(number, _, _)
        | Command::SetUserHeader(number, _)
        | Command::AssumeInit(number)
        | Command::IsDeliverable(number)
        | Command::Send(number)
        | Command::Receive(number)
        | Command::HasEntries(number)
        | Command::IsConnected(number)
        | Command::SetHint(number)
        | Command::HasHint(number)
        | Command::Servers(number)
        | Command::Header(number)
        | Command::UserHeader(number)
        | Command::Payload(number)
        | Command::Origin(number)
        | Command::Strategy(number)
        | Command::MaxSliceLen(number)
        | Command::UpdateConnections(number)
        | Command::Release(number) => Some(*number),
    }
}
