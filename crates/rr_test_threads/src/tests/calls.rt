//! The calls of the typed family that no other scene makes: writes, changes and reads in place, and queries of
//! handles.
use super::worker::{Active, Pending, Ports, Worker, given_back, made};
use rr_ports::ReceiveError;
use rr_shared_ports::typed::{Client, Response, Server};
use rr_shared_ports::{Naming, WaitError, WriteError};
use std::process::Abort;
use std::sync::Wait;
use std::time::{Clock, Duration};

/// For how long a thread waits for what comes soon.
const SOON: u64 = 50;

/// Adds one to a number.
fn add_one(value: &mut u64) {
    *value = value.wrapping_add(1);
}

/// Adds a number to a sum.
fn add(sum: u64, value: &u64) -> u64 {
    sum.wrapping_add(*value)
}

/// Returns ten times a number.
fn tenfold(value: &u64) -> u64 {
    value.wrapping_mul(10)
}

/// The client's calls.
impl<N: Naming, R: Abort + Wait + Clock> Worker<'_, N, R> {
    /// Asks in each way, and sends 4 and 5 without waiting. Returns the sum of the answers.
    pub fn make_each_call(&mut self, ports: &Ports<N>) -> u64 {
        assert_eq!(self.rt; ports.client.id().0, 0);
        self.set_hint(&ports.pending);
        let changed = self.ask_changed(&ports.client);
        let made = self.ask_copy(&ports.client);
        let default = self.ask_default(&ports.client);
        let called = ports.client.call(self.hub, self.rt, &mut self.seat, 9);
        self.tell(&ports.client, 4);
        self.tell(&ports.client, 5);
        changed
            .wrapping_add(made)
            .wrapping_add(default)
            .wrapping_add(called.expect(self.rt, "an answer comes"))
    }

    /// Checks that a request reached one server, which may answer it, and sets its hint.
    fn set_hint(&mut self, pending: &Pending<N>) {
        let reached = pending.number_of_server_connections(self.hub, self.rt, &mut self.seat);
        let is_connected = pending.is_connected(self.hub, self.rt, &mut self.seat);
        assert!(self.rt; is_connected && reached == 1);
        pending.set_disconnect_hint(self.hub, self.rt, &mut self.seat);
    }

    /// Asks by a request that is changed in place. Returns the answer.
    fn ask_changed(&mut self, client: &Client<N, u64>) -> u64 {
        let pending = self.send_changed_request(client);
        let response = match self.take_soon(&pending, Duration::from_secs(SOON)) {
            Ok(Some(response)) => response,
            Ok(None) | Err(_) => panic!(self.rt; "no response came"),
        };
        self.forget(pending);
        let header = self.response_header(&response);
        assert_eq!(self.rt; header, 2);
        self.said(response)
    }

    /// Waits for a response, for some time.
    pub fn take_soon(
        &mut self,
        pending: &Pending<N>,
        most: Duration,
    ) -> Result<Option<Response<N, u64>>, WaitError<ReceiveError>> {
        pending.receive_timeout(self.hub, self.rt, &mut self.seat, most)
    }

    /// Loans a request, is refused to send it since it has no payload, and sends 5. Adds one to it, and twice one to
    /// its header.
    fn send_changed_request(&mut self, client: &Client<N, u64>) -> Pending<N> {
        let request = self.loan_request(client);
        let early = request.assume_init(self.hub, self.rt, &mut self.seat);
        let request = given_back(self.rt, early, WriteError::Incomplete);
        request.update_user_header(self.hub, self.rt, &mut self.seat, add_one);
        let request = self.write_request(request, 5);
        request.update(self.hub, self.rt, &mut self.seat, add_one);
        request.update_user_header(self.hub, self.rt, &mut self.seat, add_one);
        made(self.rt, request.try_send(self.hub, self.rt, &mut self.seat))
    }

    /// Returns the header of a response.
    fn response_header(&mut self, response: &Response<N, u64>) -> u64 {
        let handle = response.handle();
        response.look(
            self.hub,
            self.rt,
            &mut self.seat,
            |ports| *handle.user_header(ports),
        )
    }

    /// Reads a response in place and by value. Returns its number.
    fn said(&mut self, response: Response<N, u64>) -> u64 {
        let read = response.read(self.hub, self.rt, &mut self.seat, tenfold);
        let copied = response.payload_copy(self.hub, self.rt, &mut self.seat);
        let said = response.into_payload(self.hub, self.rt, &mut self.seat);
        assert!(self.rt; copied == said && read == tenfold(&said));
        said
    }

    /// Waits until a response is queued.
    fn until_answered(&mut self, pending: &Pending<N>) {
        for _ in self.rt.forever() {
            if pending.has_response(self.hub, self.rt, &mut self.seat) {
                break;
            }
        }
    }

    /// Asks by a request of the default value. Returns the answer, as soon as it is queued.
    fn ask_default(&mut self, client: &Client<N, u64>) -> u64 {
        let loaned = client.loan(self.hub, self.rt, &mut self.seat);
        let request = loaned.expect(self.rt, "a request is loaned");
        let sent = request.send(self.hub, self.rt, &mut self.seat);
        let pending = sent.expect(self.rt, "a request is sent");
        self.until_answered(&pending);
        let said = pending.receive_copy(self.hub, self.rt, &mut self.seat);
        self.forget(pending);
        said.unwrap_or(None).expect(self.rt, "a response is there")
    }

    /// Asks for the answer to 7. Returns the sum of the answers.
    fn ask_copy(&mut self, client: &Client<N, u64>) -> u64 {
        let pending = self.ask(client, 7);
        self.until_answered(&pending);
        let folded = pending.fold_responses(self.hub, self.rt, &mut self.seat, 0, add);
        self.forget(pending);
        folded.expect(self.rt, "responses are folded")
    }
}

/// The server's calls.
impl<N: Naming, R: Abort + Wait + Clock> Worker<'_, N, R> {
    /// Answers in each way. Returns the sum of the received numbers.
    pub fn answer_each_call(&mut self, ports: &Ports<N>) -> u64 {
        assert_eq!(self.rt; ports.server.id().0, 1);
        let changed = self.answer_changed(&ports.server);
        assert!(self.rt; self.has_hint(&ports.active));
        let made = self.answer_made(&ports.server);
        let default = self.answer_default(&ports.server);
        let served = ports
            .server
            .serve(self.hub, self.rt, &mut self.seat, tenfold);
        assert!(self.rt; served.is_ok());
        let told = self.told(&ports.server);
        changed
            .wrapping_add(made)
            .wrapping_add(default)
            .wrapping_add(told)
    }

    /// Answers with ten times a request's value, and its header, by a response that is changed in place. Returns the
    /// request's number.
    fn answer_changed(&mut self, server: &Server<N, u64>) -> u64 {
        let soon = Duration::from_secs(SOON);
        let heard = server.receive_timeout(self.hub, self.rt, &mut self.seat, soon);
        let active = heard.expect(self.rt, "a request comes");
        self.check_sender(&active);
        let header = self.request_header(&active);
        let asked = self.asked(&active);
        self.send_changed_response(&active, tenfold(&asked).wrapping_add(header));
        self.finish(active);
        asked
    }

    /// Checks that a request came from client 0, which waits for a response, and hinted nothing.
    fn check_sender(&mut self, active: &Active<N>) {
        let origin = active.origin(self.hub, self.rt, &mut self.seat);
        let is_connected = active.is_connected(self.hub, self.rt, &mut self.seat);
        assert!(self.rt; origin.0 == 0 && is_connected && !self.has_hint(active));
    }

    /// Returns whether the client of a request set its hint.
    fn has_hint(&mut self, active: &Active<N>) -> bool {
        active.has_disconnect_hint(self.hub, self.rt, &mut self.seat)
    }

    /// Returns the header of a request.
    fn request_header(&mut self, active: &Active<N>) -> u64 {
        let handle = active.handle();
        active.look(
            self.hub,
            self.rt,
            &mut self.seat,
            |ports| *handle.user_header(ports),
        )
    }

    /// Loans a response, is refused to send it since it has no payload, and sends a value. Adds one to it, and twice
    /// one to its header.
    fn send_changed_response(&mut self, active: &Active<N>, value: u64) {
        let response = self.loan_response(active);
        let early = response.assume_init(self.hub, self.rt, &mut self.seat);
        let response = given_back(self.rt, early, WriteError::Incomplete);
        response.update_user_header(self.hub, self.rt, &mut self.seat, add_one);
        let response = self.write_response(response, value);
        response.update(self.hub, self.rt, &mut self.seat, add_one);
        response.update_user_header(self.hub, self.rt, &mut self.seat, add_one);
        let tried = response.try_send(self.hub, self.rt, &mut self.seat);
        made(self.rt, tried);
    }

    /// Answers a request with ten times its value, which is read in place. Returns the request's number.
    fn answer_made(&mut self, server: &Server<N, u64>) -> u64 {
        let active = self.hear(server).expect(self.rt, "a request comes");
        let read = active.read(self.hub, self.rt, &mut self.seat, tenfold);
        let sent = active.respond_with(self.hub, self.rt, &mut self.seat, tenfold);
        assert!(self.rt; sent.is_ok());
        let asked = self.asked(&active);
        assert_eq!(self.rt; read, tenfold(&asked));
        self.finish(active);
        asked
    }

    /// Answers a request with the default value. Returns the request's number.
    fn answer_default(&mut self, server: &Server<N, u64>) -> u64 {
        let active = self.hear(server).expect(self.rt, "a request comes");
        let loaned = active.loan(self.hub, self.rt, &mut self.seat);
        let response = loaned.expect(self.rt, "a response is loaned");
        let sent = response.send(self.hub, self.rt, &mut self.seat);
        sent.expect(self.rt, "a response is sent");
        let asked = self.asked(&active);
        self.finish(active);
        asked
    }

    /// Waits until a request is queued.
    fn until_asked(&mut self, server: &Server<N, u64>) {
        for _ in self.rt.forever() {
            if server.has_requests(self.hub, self.rt, &mut self.seat) == Ok(true) {
                break;
            }
        }
    }

    /// Receives two numbers that clients send without waiting. Returns their sum.
    fn told(&mut self, server: &Server<N, u64>) -> u64 {
        self.until_asked(server);
        let told = server.receive_copy(self.hub, self.rt, &mut self.seat);
        let first = told.unwrap_or(None).expect(self.rt, "a number is there");
        self.until_asked(server);
        let folded = server.fold_requests(self.hub, self.rt, &mut self.seat, first, add);
        folded.expect(self.rt, "requests are folded")
    }
}
