//! A client with a whole pool, whose loans never fail for want of a slot.
#![tactic(auto, using(rr_ports::proofs::Frames::callers), unfolding(rr_ports::specs::Facts::Keeps, rr_ports::specs::Facts::IsFree))]

ghost use Rattle.std.specs.Prelude.{◌+◌, ◌≡◌, ◌<◌, ◌≤◌, ◌≢◌, [], Err, IfOk};
ghost use Rattle.rr_protocol.specs.declared.kind.Kind.TheVariants as kind;
ghost use Rattle.rr_protocol.specs.declared.error.LoanError.{LoanError};
ghost use Rattle.rr_ports.specs.Facts.{Has, IsFree, Keeps, Names, WholePool, numbers_left};

use crate::frames::{Service, serve};
use rr_ports::typed::{Client, PortFactoryClient, RequestMut, Server};
use rr_ports::{BackpressureStrategy, ClientCreateError, LoanError};

/// Loans and writes a request. Never returns `OutOfMemory`.
pub fn loan(
    hub: &mut Service,
    client: &Client<u64>,
    value: u64,
) -> Result<RequestMut<u64>, LoanError>
    requires client { Names hub.old client.now kind.Client }
    requires pool { Has hub.old client.now (WholePool 1) }
    requires number { 0 < numbers_left hub.old }
    ensures found { result ≢ Err LoanError.OutOfMemory }
    ensures free { IfOk result (λ request. IsFree [] hub.old request) }
    ensures kind { IfOk result (λ request. Names hub.new request kind.RequestMut) }
    ensures keeps { Keeps [] hub.old hub.new }
{
    let request = client.loan_uninit(hub)?;
    Ok(request.write_payload(hub, value))
}

/// Creates a client with a whole pool.
pub fn create(hub: &mut Service) -> Result<Client<u64>, ClientCreateError>
    ensures free { IfOk result (λ client. IsFree [] hub.old client) }
    ensures kind { IfOk result (λ client. Names hub.new client kind.Client) }
    ensures pool { IfOk result (λ client. Has hub.new client (WholePool 1)) }
    ensures keeps { Keeps [] hub.old hub.new }
    ensures numbers { numbers_left hub.old ≤ numbers_left hub.new + 1 }
{
    hub.client_builder().create(hub)
}

/// Returns a factory of clients whose sends are refused at full queues.
fn patient(hub: &Service) -> PortFactoryClient<u64> {
    hub.client_builder()
        .backpressure_strategy(BackpressureStrategy::RetryUntilDelivered)
}

/// Creates a client with a whole pool by a factory of which no clause says anything.
pub fn create_patient(hub: &mut Service) -> Result<Client<u64>, ClientCreateError>
    ensures kind { IfOk result (λ client. Names hub.new client kind.Client) }
    ensures pool { IfOk result (λ client. Has hub.new client (WholePool 1)) }
    ensures keeps { Keeps [] hub.old hub.new }
{
    patient(hub).create(hub)
}

/// Returns whether a loan is granted, and releases it. It can't be refused for want of a slot.
fn is_granted(hub: &mut Service, client: &Client<u64>) -> bool
    requires client { Names hub.old client.now kind.Client }
    requires pool { Has hub.old client.now (WholePool 1) }
    requires number { 0 < numbers_left hub.old }
    ensures keeps { Keeps [] hub.old hub.new }
{
    match loan(hub, client, 1) {
        Ok(request) => {
            request.release(hub);
            true
        }
        Err(LoanError::OutOfMemory) => unreachable!(),
        Err(_) => false,
    }
}

/// Creates a client, makes a server answer others, and loans from the client, whose pool is still whole.
pub fn loan_later(hub: &mut Service, server: &Server<u64>) -> Result<bool, ClientCreateError>
    requires server { Names hub.old server.now kind.Server }
    requires numbers { 3 < numbers_left hub.old }
    ensures keeps { Keeps [] hub.old hub.new }
{
    let client = create(hub)?;
    let _ = serve(hub, server);
    let granted = is_granted(hub, &client);
    client.release(hub);
    Ok(granted)
}
