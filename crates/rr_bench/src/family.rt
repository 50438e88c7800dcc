//! The families of messages: a word, an element that is written in place, and a slice of words.
#![tactic(auto, using(rr_ports::proofs::Frames::callers), unfolding(rr_ports::specs::Facts::Keeps, rr_ports::specs::Facts::IsFree))]

ghost use Rattle.std.specs.Prelude.{◌<◌, ◌≤◌, ◌+◌, IfOk, []};
ghost use Rattle.rr_protocol.specs.declared.kind.Kind.TheVariants as kind;
ghost use Rattle.rr_ports.specs.Facts.{IsFree, Keeps, Names, numbers_left};

use rr_ports::{
    ActiveRequest, Client, ClientCreateError, NoHandler, PendingResponse, ReceiveError,
    RequestSendError, SendError, Server, ServerCreateError,
};
use rr_slots::{KeptBody, SliceBody, WriteBody};

/// A hub whose requests and responses are of one family.
pub type Hub<B> = rr_ports::Hub<B, u64, B, u64, NoHandler>;

/// A family of messages: how they are written and read.
pub trait Family: WriteBody {
    /// Creates a client whose requests have at most `len` elements.
    fn client(hub: &mut Hub<Self>, _len: usize) -> Result<Client<Self>, ClientCreateError>
        ensures free { IfOk result (λ client. IsFree [] hub.old client) }
        ensures kind { IfOk result (λ client. Names hub.new client kind.Client) }
        ensures keeps { Keeps [] hub.old hub.new }
    {
        hub.client_builder().create(hub)
    }

    /// Creates a server whose responses have at most `len` elements.
    fn server(hub: &mut Hub<Self>, _len: usize) -> Result<Server<Self>, ServerCreateError>
        ensures free { IfOk result (λ server. IsFree [] hub.old server) }
        ensures kind { IfOk result (λ server. Names hub.new server kind.Server) }
        ensures keeps { Keeps [] hub.old hub.new }
    {
        hub.server_builder().create(hub)
    }

    /// Sends a request that is filled with a word.
    fn ask(
        hub: &mut Hub<Self>,
        client: &Client<Self>,
        len: usize,
        word: u64,
    ) -> Result<PendingResponse<Self>, RequestSendError>
        requires client { Names hub.old client.now kind.Client }
        requires numbers { 0 < numbers_left hub.old }
        ensures free { IfOk result (λ pending. IsFree [] hub.old pending) }
        ensures kind { IfOk result (λ pending. Names hub.new pending kind.PendingResponse) }
        ensures keeps { Keeps [] hub.old hub.new }
        ensures numbers { numbers_left hub.old ≤ numbers_left hub.new + 1 };

    /// Sends a response that is filled with the last received word plus one.
    fn respond(
        hub: &mut Hub<Self>,
        active: &ActiveRequest<Self>,
        len: usize,
    ) -> Result<(), SendError>
        requires active { Names hub.old active.now kind.ActiveRequest }
        requires numbers { 0 < numbers_left hub.old }
        ensures { Keeps [] hub.old hub.new };

    /// Receives a response, and releases it. Returns its last word, or `None` if there is none.
    fn take(
        hub: &mut Hub<Self>,
        pending: &PendingResponse<Self>,
    ) -> Result<Option<u64>, ReceiveError>
        requires { Names hub.old pending.now kind.PendingResponse }
        ensures { Keeps [] hub.old hub.new };
}

impl Family for Option<u64> {
    #[inline(always)]
    fn ask(
        hub: &mut Hub<Self>,
        client: &Client<Self>,
        _len: usize,
        word: u64,
    ) -> Result<PendingResponse<Self>, RequestSendError> {
        client.send_copy(hub, word)
    }

    #[inline(always)]
    fn respond(
        hub: &mut Hub<Self>,
        active: &ActiveRequest<Self>,
        _len: usize,
    ) -> Result<(), SendError> {
        let word = *active.payload(hub);
        active.send_copy(hub, word.wrapping_add(1))
    }

    #[inline(always)]
    fn take(
        hub: &mut Hub<Self>,
        pending: &PendingResponse<Self>,
    ) -> Result<Option<u64>, ReceiveError> {
        match pending.receive(hub)? {
            Some(response) => Ok(Some(response.into_payload(hub))),
            None => Ok(None),
        }
    }
}

impl<const N: usize> Family for KeptBody<[u64; N]> {
    #[inline(always)]
    fn ask(
        hub: &mut Hub<Self>,
        client: &Client<Self>,
        _len: usize,
        word: u64,
    ) -> Result<PendingResponse<Self>, RequestSendError> {
        let request = client.loan_kept(hub)?;
        request.update(hub, |page: &mut [u64; N]| page.as_mut_slice().fill(word));
        request.send(hub)
    }

    #[inline(always)]
    fn respond(
        hub: &mut Hub<Self>,
        active: &ActiveRequest<Self>,
        _len: usize,
    ) -> Result<(), SendError> {
        let word = active.payload(hub).as_slice().last().copied().unwrap_or(0);
        let response = active.loan_kept(hub)?;
        response.update(
            hub,
            |page: &mut [u64; N]| page.as_mut_slice().fill(word.wrapping_add(1)),
        );
        response.send(hub)
    }

    #[inline(always)]
    fn take(
        hub: &mut Hub<Self>,
        pending: &PendingResponse<Self>,
    ) -> Result<Option<u64>, ReceiveError> {
        let Some(response) = pending.receive(hub)? else {
            return Ok(None);
        };
        let word = response.payload(hub).as_slice().last().copied();
        response.release(hub);
        Ok(word)
    }
}

impl Family for SliceBody<u64> {
    fn client(hub: &mut Hub<Self>, len: usize) -> Result<Client<Self>, ClientCreateError> {
        hub.client_builder().initial_max_slice_len(len).create(hub)
    }

    fn server(hub: &mut Hub<Self>, len: usize) -> Result<Server<Self>, ServerCreateError> {
        hub.server_builder().initial_max_slice_len(len).create(hub)
    }

    #[inline(always)]
    fn ask(
        hub: &mut Hub<Self>,
        client: &Client<Self>,
        len: usize,
        word: u64,
    ) -> Result<PendingResponse<Self>, RequestSendError> {
        let request = client.loan_slice_uninit(hub, len)?;
        let request = request.fill(hub, word);
        request.send(hub)
    }

    #[inline(always)]
    fn respond(
        hub: &mut Hub<Self>,
        active: &ActiveRequest<Self>,
        len: usize,
    ) -> Result<(), SendError> {
        let word = active.payload(hub).last().copied().unwrap_or(0);
        let response = active.loan_slice_uninit(hub, len)?;
        let response = response.fill(hub, word.wrapping_add(1));
        response.send(hub)
    }

    #[inline(always)]
    fn take(
        hub: &mut Hub<Self>,
        pending: &PendingResponse<Self>,
    ) -> Result<Option<u64>, ReceiveError> {
        let Some(response) = pending.receive(hub)? else {
            return Ok(None);
        };
        let word = response.payload(hub).last().copied();
        response.release(hub);
        Ok(word)
    }
}
