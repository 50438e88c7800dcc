//! Slices: a client in one thread and a server in another write them in each form.
ghost use Rattle.std.specs.Prelude.{◌≡◌};

use super::worker::{given_back, made};
use rr_ports::{Limits, UniqueNodeId};
use rr_shared_ports::sliced::{
    ActiveRequest, Client, Opened, PendingResponse, RequestMut, RequestMutUninit, ResponseMut,
    ResponseMutUninit, Seat, Server, SharedPorts,
};
use rr_shared_ports::{Naming, WriteError};
use std::marker::Brand;
use std::process::Abort;
use std::sync::Wait;
use std::test::Fail;
use std::thread;
use std::thread::Threads;

type Slices = Opened<u64, u64, u64, u64>;

type Shared<N> = SharedPorts<N, u64, u64, u64, u64>;

type Caller<N> = Seat<N, u64, u64, u64, u64>;

/// The sums of the requests' elements, and of the responses' elements.
const SUMS: [(u64, u64); 6] = [(6, 13), (15, 12), (3, 7), (9, 9), (15, 17), (14, 10)];

/// Adds up a slice.
fn sum(slice: &[u64]) -> u64 {
    let mut sum = 0u64;
    for element in slice {
        sum = sum.wrapping_add(*element);
    }
    sum
}

/// Makes the first element 9.
fn begin_with_nine(elements: &mut [u64]) {
    if let Some(first) = elements.first_mut() {
        *first = 9;
    }
}

/// Appends 1, 2 and 3, and is refused a fourth element. Returns that.
fn pushed<N: Naming, R: Wait>(
    rt: &R,
    hub: &Shared<N>,
    seat: &mut Caller<N>,
    request: &RequestMutUninit<N, u64>,
) -> Option<u64> {
    for element in 1..=3u64 {
        if request.push(hub, rt, seat, element).is_err() {
            return None;
        }
    }
    request.push(hub, rt, seat, 4).err()
}

/// A thread's runtime, its hub and its seat at the hub.
#[derive(Drop)]
struct Worker<'a, N: Naming, R> {
    rt: &'a R,
    hub: &'a Shared<N>,
    seat: Caller<N>,
}

impl<'a, N: Naming, R> Worker<'a, N, R> {
    /// Takes a seat.
    fn at(rt: &'a R, hub: &'a Shared<N>) -> Self {
        Worker {
            rt,
            hub,
            seat: hub.seat(),
        }
    }
}

/// The client's calls.
impl<N: Naming, R: Abort + Wait> Worker<'_, N, R> {
    /// Sends requests that are written in each way, and checks the responses.
    fn ask_each(&mut self, client: &Client<N, u64>) {
        for (place, (_, said)) in SUMS.into_iter().enumerate() {
            let sent = match place {
                0 => client
                    .send_slice(self.hub, self.rt, &mut self.seat, &[1, 2, 3])
                    .ok(),
                _ => {
                    let request = self.written_request(client, place);
                    request.send(self.hub, self.rt, &mut self.seat).ok()
                }
            };
            let pending = sent.expect(self.rt, "a request is sent");
            assert_eq!(self.rt; self.answered(&pending), said, "response {place}");
            pending.release(self.hub, self.rt, &mut self.seat);
        }
    }

    /// Writes a request of three elements.
    fn written_request(&mut self, client: &Client<N, u64>, place: usize) -> RequestMut<N, u64> {
        if place == 3 {
            return self.default_request(client);
        }
        let loaned = client.loan_slice_uninit(self.hub, self.rt, &mut self.seat, 3);
        let request = loaned.expect(self.rt, "a request is loaned");
        match place {
            1 => request.fill(self.hub, self.rt, &mut self.seat, 5),
            2 => request.write_from_fn(self.hub, self.rt, &mut self.seat, |index| index as u64),
            4 => self.copied_request(request),
            _ => self.pushed_request(request),
        }
    }

    /// Loans a request of default elements, and changes it in place.
    fn default_request(&mut self, client: &Client<N, u64>) -> RequestMut<N, u64> {
        let loaned = client.loan_slice(self.hub, self.rt, &mut self.seat, 3);
        let request = loaned.expect(self.rt, "a request is loaned");
        request.update(self.hub, self.rt, &mut self.seat, begin_with_nine);
        request
    }

    /// Is refused two elements, and copies 4, 5 and 6.
    fn copied_request(&mut self, request: RequestMutUninit<N, u64>) -> RequestMut<N, u64> {
        let two = request.write_from_slice(self.hub, self.rt, &mut self.seat, &[4, 5]);
        let request = given_back(self.rt, two, WriteError::WrongLength);
        let three = request.write_from_slice(self.hub, self.rt, &mut self.seat, &[4, 5, 6]);
        made(self.rt, three)
    }

    /// Appends three elements, and changes them in place.
    fn pushed_request(&mut self, request: RequestMutUninit<N, u64>) -> RequestMut<N, u64> {
        let fourth = pushed(self.rt, self.hub, &mut self.seat, &request);
        assert!(self.rt; fourth == Some(4));
        request.update(self.hub, self.rt, &mut self.seat, begin_with_nine);
        made(
            self.rt,
            request.assume_init(self.hub, self.rt, &mut self.seat),
        )
    }

    /// Waits for a response. Returns the sum of its elements.
    fn answered(&mut self, pending: &PendingResponse<N, u64>) -> u64 {
        match pending.receive_wait(self.hub, self.rt, &mut self.seat) {
            Ok(Some(response)) => {
                let said = response.read(self.hub, self.rt, &mut self.seat, sum);
                response.release(self.hub, self.rt, &mut self.seat);
                said
            }
            Ok(None) | Err(_) => panic!(self.rt; "no response came"),
        }
    }
}

/// The server's calls.
impl<N: Naming, R: Abort + Wait> Worker<'_, N, R> {
    /// Checks requests, and sends responses that are written in each way.
    fn answer_each(&mut self, server: &Server<N, u64>) {
        for (place, (asked, _)) in SUMS.into_iter().enumerate() {
            let heard = server.receive_wait(self.hub, self.rt, &mut self.seat);
            let active = heard.expect(self.rt, "a request comes");
            let read = active.read(self.hub, self.rt, &mut self.seat, sum);
            assert_eq!(self.rt; read, asked, "request {place}");
            assert!(self.rt; self.responds(&active, place), "response {place}");
            active.release(self.hub, self.rt, &mut self.seat);
        }
    }

    /// Sends a response of two elements. Returns whether it was sent.
    fn responds(&mut self, active: &ActiveRequest<N, u64>, place: usize) -> bool {
        let made = |asked: &[u64], index| sum(asked).wrapping_add(index as u64);
        match place {
            0 => active
                .send_slice(self.hub, self.rt, &mut self.seat, &[6, 7])
                .is_ok(),
            2 => active
                .respond_with(self.hub, self.rt, &mut self.seat, 2, made)
                .is_ok(),
            _ => {
                let response = self.written_response(active, place);
                response.send(self.hub, self.rt, &mut self.seat).is_ok()
            }
        }
    }

    /// Writes a response of two elements.
    fn written_response(
        &mut self,
        active: &ActiveRequest<N, u64>,
        place: usize,
    ) -> ResponseMut<N, u64> {
        if place == 3 {
            return self.default_response(active);
        }
        let loaned = active.loan_slice_uninit(self.hub, self.rt, &mut self.seat, 2);
        let response = loaned.expect(self.rt, "a response is loaned");
        match place {
            1 => response.fill(self.hub, self.rt, &mut self.seat, 6),
            4 => self.copied_response(response),
            _ => self.pushed_response(response),
        }
    }

    /// Loans a response of default elements, and changes it in place.
    fn default_response(&mut self, active: &ActiveRequest<N, u64>) -> ResponseMut<N, u64> {
        let loaned = active.loan_slice(self.hub, self.rt, &mut self.seat, 2);
        let response = loaned.expect(self.rt, "a response is loaned");
        response.update(self.hub, self.rt, &mut self.seat, begin_with_nine);
        response
    }

    /// Is refused three elements, and writes 8 and 9, which a function returns.
    fn copied_response(&mut self, response: ResponseMutUninit<N, u64>) -> ResponseMut<N, u64> {
        let three = response.write_from_slice(self.hub, self.rt, &mut self.seat, &[8, 9, 9]);
        let response = given_back(self.rt, three, WriteError::WrongLength);
        let next = |index| (index as u64).wrapping_add(8);
        response.write_from_fn(self.hub, self.rt, &mut self.seat, next)
    }

    /// Appends 1 and 1, and changes them in place.
    fn pushed_response(&mut self, response: ResponseMutUninit<N, u64>) -> ResponseMut<N, u64> {
        for _ in 0..2 {
            let appended = response.push(self.hub, self.rt, &mut self.seat, 1);
            assert!(self.rt; appended.is_ok());
        }
        response.update(self.hub, self.rt, &mut self.seat, begin_with_nine);
        made(
            self.rt,
            response.assume_init(self.hub, self.rt, &mut self.seat),
        )
    }
}

/// Creates a client and a server, and lets two threads exchange slices.
fn exchange<N: Naming, R: Abort + Threads + Wait + Sync>(rt: &R, opened: Slices)
    requires keeper { opened.keeper_id ≡ N.keeper_id }
    requires log { opened.log_id ≡ N.log_id }
    requires limits { opened.limits ≡ N.limits }
    requires node_id { opened.node_id ≡ N.node_id }
{
    let hub = opened.named::<N>();
    let mut seat = hub.seat();
    let clients = hub.client_builder(rt).initial_max_slice_len(3);
    let created = hub.create_client(rt, &mut seat, clients);
    let client = created.expect(rt, "a client is created");
    let servers = hub.server_builder(rt).initial_max_slice_len(2);
    let created = hub.create_server(rt, &mut seat, servers);
    let server = created.expect(rt, "a server is created");
    two(rt, &hub, &client, &server);
    client.release(&hub, rt, &mut seat);
    server.release(&hub, rt, &mut seat);
}

/// Lets the client ask in one thread, and the server answer in another.
fn two<N: Naming, R: Abort + Threads + Wait + Sync>(
    rt: &R,
    hub: &Shared<N>,
    client: &Client<N, u64>,
    server: &Server<N, u64>,
) {
    thread::join(
        rt,
        || Worker::at(rt, hub).ask_each(client),
        || Worker::at(rt, hub).answer_each(server),
    );
}

#[test]
fn two_threads_exchange_slices_in_each_form(rt: HostRuntime) -> Result<(), Fail> {
    let opened = Slices::new(rt.alloc(), Limits::default(), UniqueNodeId(3))?;
    exchange::<Brand, _>(&rt, opened);
    Ok(())
}
