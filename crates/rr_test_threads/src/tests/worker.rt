//! A thread at a hub of the typed family, with a function for each call that several scenes make. A refused call ends
//! the test.
use rr_ports::{BackpressureStrategy, Refused};
use rr_shared_ports::Naming;
use rr_shared_ports::typed::{
    ActiveRequest, Client, Opened, PendingResponse, RequestMut, RequestMutUninit, ResponseMut,
    ResponseMutUninit, Seat, Server, SharedPorts,
};
use std::process::Abort;
use std::sync::Wait;

/// A hub whose payloads and user headers are numbers, and which has no name yet.
pub type Numbers = Opened<u64, u64, u64, u64>;

/// Such a hub.
pub type Shared<N> = SharedPorts<N, u64, u64, u64, u64>;

/// A caller of it.
pub type Caller<N> = Seat<N, u64, u64, u64, u64>;

/// A request that was sent, at its client.
pub type Pending<N> = PendingResponse<N, u64>;

/// A request that was received, at its server.
pub type Active<N> = ActiveRequest<N, u64>;

/// A client and a server, a request, and the active request that the server received.
pub struct Ports<N: Naming> {
    pub client: Client<N, u64>,
    pub server: Server<N, u64>,
    pub pending: Pending<N>,
    pub active: Active<N>,
}

/// Returns the handle that a call made. The call must not be refused.
pub fn made<R: Abort, T, M, E>(rt: &R, came: Result<T, Refused<M, E>>) -> T {
    match came {
        Ok(it) => it,
        Err(_) => panic!(rt; "a message was given back"),
    }
}

/// Returns the message that a call gives back. It must be refused, and for this reason.
pub fn given_back<R: Abort, T, M, E: PartialEq + Drop>(
    rt: &R,
    came: Result<T, Refused<M, E>>,
    reason: E,
) -> M {
    match came {
        Ok(_) => panic!(rt; "no message was given back"),
        Err(Refused { message, error }) => {
            assert!(rt; error == reason);
            message
        }
    }
}

/// A thread's runtime, its hub and its seat at the hub.
#[derive(Drop)]
pub struct Worker<'a, N: Naming, R> {
    pub rt: &'a R,
    pub hub: &'a Shared<N>,
    pub seat: Caller<N>,
}

impl<'a, N: Naming, R> Worker<'a, N, R> {
    /// Takes a seat.
    pub fn at(rt: &'a R, hub: &'a Shared<N>) -> Self {
        Worker {
            rt,
            hub,
            seat: hub.seat(),
        }
    }
}

impl<N: Naming, R: Abort + Wait> Worker<'_, N, R> {
    /// Creates a client that is refused at a full queue.
    pub fn client(&mut self) -> Client<N, u64> {
        let retry = BackpressureStrategy::RetryUntilDelivered;
        let factory = self.hub.client_builder(self.rt);
        let factory = factory.backpressure_strategy(retry);
        let created = self.hub.create_client(self.rt, &mut self.seat, factory);
        created.expect(self.rt, "a client is created")
    }

    /// Creates a server that is refused at a full queue.
    pub fn server(&mut self) -> Server<N, u64> {
        let retry = BackpressureStrategy::RetryUntilDelivered;
        let factory = self.hub.server_builder(self.rt);
        let factory = factory.backpressure_strategy(retry);
        let created = self.hub.create_server(self.rt, &mut self.seat, factory);
        created.expect(self.rt, "a server is created")
    }

    /// Creates a client and a server, sends a request and receives it.
    pub fn ports(&mut self) -> Ports<N> {
        let client = self.client();
        let server = self.server();
        let pending = self.ask(&client, 1);
        match server.receive(self.hub, self.rt, &mut self.seat) {
            Ok(Some(active)) => Ports {
                client,
                server,
                pending,
                active,
            },
            Ok(None) | Err(_) => panic!(self.rt; "no request came"),
        }
    }

    /// Sends a number, without waiting for an answer.
    pub fn tell(&mut self, client: &Client<N, u64>, value: u64) {
        let told = client.tell(self.hub, self.rt, &mut self.seat, value);
        told.expect(self.rt, "a number is told");
    }

    /// Sends a number.
    pub fn ask(&mut self, client: &Client<N, u64>, value: u64) -> Pending<N> {
        let sent = client.send_copy(self.hub, self.rt, &mut self.seat, value);
        sent.expect(self.rt, "a request is sent")
    }

    /// Loans a request, to be written.
    pub fn loan_request(&mut self, client: &Client<N, u64>) -> RequestMutUninit<N, u64> {
        let loaned = client.loan_uninit(self.hub, self.rt, &mut self.seat);
        loaned.expect(self.rt, "a request is loaned")
    }

    /// Writes a number into a request.
    pub fn write_request(
        &mut self,
        request: RequestMutUninit<N, u64>,
        value: u64,
    ) -> RequestMut<N, u64> {
        request.write_payload(self.hub, self.rt, &mut self.seat, value)
    }

    /// Waits for a request. Returns `None` if the hub was closed.
    pub fn hear(&mut self, server: &Server<N, u64>) -> Option<Active<N>> {
        server.receive_wait(self.hub, self.rt, &mut self.seat).ok()
    }

    /// Returns a request's number.
    pub fn asked(&mut self, active: &Active<N>) -> u64 {
        active.payload_copy(self.hub, self.rt, &mut self.seat)
    }

    /// Sends a number as a response.
    pub fn answer(&mut self, active: &Active<N>, value: u64) {
        let sent = active.send_copy(self.hub, self.rt, &mut self.seat, value);
        sent.expect(self.rt, "a response is sent");
    }

    /// Loans a response, to be written.
    pub fn loan_response(&mut self, active: &Active<N>) -> ResponseMutUninit<N, u64> {
        let loaned = active.loan_uninit(self.hub, self.rt, &mut self.seat);
        loaned.expect(self.rt, "a response is loaned")
    }

    /// Writes a number into a response.
    pub fn write_response(
        &mut self,
        response: ResponseMutUninit<N, u64>,
        value: u64,
    ) -> ResponseMut<N, u64> {
        response.write_payload(self.hub, self.rt, &mut self.seat, value)
    }

    /// Waits for a response. Returns its number, or `None` if none can arrive.
    pub fn take(&mut self, pending: &Pending<N>) -> Option<u64> {
        match pending.receive_wait(self.hub, self.rt, &mut self.seat) {
            Ok(Some(response)) => Some(response.into_payload(self.hub, self.rt, &mut self.seat)),
            Ok(None) => None,
            Err(_) => panic!(self.rt; "a wait for a response ended"),
        }
    }

    /// Releases a pending response.
    pub fn forget(&mut self, pending: Pending<N>) {
        pending.release(self.hub, self.rt, &mut self.seat);
    }

    /// Releases an active request.
    pub fn finish(&mut self, active: Active<N>) {
        active.release(self.hub, self.rt, &mut self.seat);
    }
}
