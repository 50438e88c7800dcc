//! Random calls of clients and servers at one hub with narrow queues, each in a thread of its own, and a thread that
//! watches whether they make progress.
ghost use Rattle.std.specs.Prelude.{◌≡◌};

use crate::threads::{Hub, HubSeat, OpenedHub};
use anyhow::{bail, ensure};
use rand_core::{Rng, SeedableRng};
use rand_xoshiro::SplitMix64;
use rr_ports::{BackpressureStrategy, Limits, Refused, UniqueNodeId};
use rr_shared_ports::typed::{ActiveRequest, Client, PendingResponse, Server};
use rr_shared_ports::{Naming, WaitError};
use std::alloc::Global;
use std::marker::Brand;
use std::sync::Wait;
use std::sync::atomic::{AtomicU64, Ordering};
use std::thread;
use std::thread::Threads;
use std::time::{Clock, Duration};

/// A thread at the hub, and its place among the clients or the servers.
#[derive(Drop)]
struct At<'a, N: Naming, R> {
    rt: &'a R,
    hub: &'a Hub<N>,
    seat: HubSeat<N>,
    random: SplitMix64,
    place: u64,
    /// Changes as threads make progress.
    steps: &'a AtomicU64,
    /// How many clients have not ended.
    asking: &'a AtomicU64,
}

impl<N: Naming, R: Wait + Clock> At<'_, N, R> {
    /// Returns a random number below `most`. Records that the thread makes progress.
    fn below(&mut self, most: u64) -> u64 {
        self.steps.fetch_add(1, Ordering::SeqCst);
        self.random.next_u64() % most.max(1)
    }

    /// Sends about this many requests, by clients that come and leave.
    fn ask_all(&mut self, requests: u64) -> anyhow::Result<()> {
        for first in 0..requests / 16 {
            let factory = self.hub.client_builder(self.rt);
            let factory = factory.backpressure_strategy(BackpressureStrategy::RetryUntilDelivered);
            let client = self.hub.create_client(self.rt, &mut self.seat, factory)?;
            let asked = self.ask_some(&client, first.wrapping_mul(128).wrapping_add(self.place));
            client.release(self.hub, self.rt, &mut self.seat);
            asked?;
        }
        Ok(())
    }

    fn ask_some(&mut self, client: &Client<N, u64>, first: u64) -> anyhow::Result<()> {
        for later in 0..self.below(32) {
            self.ask(client, first.wrapping_add(later.wrapping_mul(4)))?;
        }
        Ok(())
    }

    /// Sends a number once there is room, and receives up to three answers, or none.
    fn ask(&mut self, client: &Client<N, u64>, asked: u64) -> anyhow::Result<()> {
        let request = client.loan_uninit(self.hub, self.rt, &mut self.seat)?;
        let request = request.write_payload(self.hub, self.rt, &mut self.seat, asked);
        match request.send_wait(self.hub, self.rt, &mut self.seat) {
            Ok(pending) => {
                let taken = self.take_some(&pending, asked);
                pending.release(self.hub, self.rt, &mut self.seat);
                taken
            }
            Err(Refused { message, error }) => {
                message.release(self.hub, self.rt, &mut self.seat);
                Err(error.into())
            }
        }
    }

    /// Checks that each answer is to this number, and that those of a server count up.
    fn take_some(&mut self, pending: &PendingResponse<N, u64>, asked: u64) -> anyhow::Result<()> {
        let mut last = [0u64; 4];
        for _ in 0..self.below(2).wrapping_mul(self.below(4)) {
            let Some(response) = pending.receive_wait(self.hub, self.rt, &mut self.seat)? else {
                return Ok(());
            };
            let said = response.into_payload(self.hub, self.rt, &mut self.seat);
            ensure!(said / 16 == asked, "{asked} was answered {said}");
            if let Some(last) = last.get_mut((said / 4 % 4) as usize) {
                ensure!(*last < said % 4, "{said} came after {last}");
                *last = said % 4;
            }
        }
        Ok(())
    }

    /// Answers requests until the hub is closed, by servers that come and leave.
    fn answer_all(&mut self) -> anyhow::Result<()> {
        for _ in self.rt.forever() {
            let factory = self.hub.server_builder(self.rt);
            let factory = factory.backpressure_strategy(BackpressureStrategy::RetryUntilDelivered);
            let server = self.hub.create_server(self.rt, &mut self.seat, factory)?;
            let is_closed = self.answer_some(&server);
            // Requests that arrive meanwhile get no answer.
            thread::sleep(self.rt, Duration::from_micros(self.below(2_000)));
            server.release(self.hub, self.rt, &mut self.seat);
            if is_closed? {
                break;
            }
        }
        Ok(())
    }

    /// Returns whether the hub is closed.
    fn answer_some(&mut self, server: &Server<N, u64>) -> anyhow::Result<bool> {
        for _ in 0..self.below(8) {
            let active = match server.receive_wait(self.hub, self.rt, &mut self.seat) {
                Ok(active) => active,
                Err(WaitError::Closed) => return Ok(true),
                Err(error) => return Err(error.into()),
            };
            let answered = self.answer(&active);
            active.release(self.hub, self.rt, &mut self.seat);
            answered?;
        }
        Ok(false)
    }

    /// Sends up to three answers. For every second one it doesn't wait until there is room.
    fn answer(&mut self, active: &ActiveRequest<N, u64>) -> anyhow::Result<()> {
        let asked = active.payload_copy(self.hub, self.rt, &mut self.seat);
        let first = asked
            .wrapping_mul(16)
            .wrapping_add(self.place.wrapping_mul(4));
        for later in 1..=self.below(4) {
            let response = active.loan_uninit(self.hub, self.rt, &mut self.seat)?;
            let said = first.wrapping_add(later);
            let response = response.write_payload(self.hub, self.rt, &mut self.seat, said);
            if later == 2 {
                let _ = response.send(self.hub, self.rt, &mut self.seat);
            } else if let Err(Refused { message, error }) = response.send_wait(
                self.hub,
                self.rt,
                &mut self.seat,
            ) {
                message.release(self.hub, self.rt, &mut self.seat);
                return Err(error.into());
            }
        }
        Ok(())
    }

    /// Closes the hub and fails if no thread makes progress for five seconds: then a thread sleeps that should have
    /// been woken.
    fn watch(&mut self) -> anyhow::Result<()> {
        let (mut steps, mut quiet) = (0u64, 0u64);
        for _ in self.rt.forever() {
            thread::sleep(self.rt, Duration::from_millis(100));
            let now = self.steps.load(Ordering::SeqCst);
            quiet = if now == steps {
                quiet.wrapping_add(1)
            } else {
                0
            };
            steps = now;
            if self.asking.load(Ordering::SeqCst) == 0 {
                break;
            }
            if quiet == 50 {
                self.hub.close();
                bail!("nobody gets on");
            }
        }
        Ok(())
    }

    /// Watches, asks or answers. The last client to end closes the hub.
    fn work(&mut self, thread: usize, requests: u64) -> anyhow::Result<()> {
        match thread {
            0 => self.watch(),
            odd if odd % 2 == 1 => {
                let asked = self.ask_all(requests);
                if self.asking.fetch_sub(1, Ordering::SeqCst) == 1 {
                    self.hub.close();
                }
                asked
            }
            _ => self.answer_all(),
        }
    }
}

/// Fails if a thread failed.
fn all_well(ends: Vec<anyhow::Result<()>>) -> anyhow::Result<()> {
    for end in ends {
        end?;
    }
    Ok(())
}

/// Runs the maximum of clients of the hub, which send requests to the maximum of servers.
fn together<N: Naming, R: Threads + Wait + Clock + Sync>(
    rt: &R,
    alloc: Global,
    opened: OpenedHub,
    requests: u64,
) -> anyhow::Result<()>
    requires keeper { opened.keeper_id ≡ N.keeper_id }
    requires log { opened.log_id ≡ N.log_id }
    requires limits { opened.limits ≡ N.limits }
    requires node_id { opened.node_id ≡ N.node_id }
{
    let hub = opened.named::<N>();
    let side = hub.limits().max_clients;
    let (steps, asking) = (AtomicU64::new(0), AtomicU64::new(side as u64));
    let work = |thread: usize| {
        At {
            rt,
            hub: &hub,
            seat: hub.seat(),
            random: SplitMix64::seed_from_u64(thread as u64),
            place: thread as u64 / 2 % 4,
            steps: &steps,
            asking: &asking,
        }
        .work(thread, requests)
    };
    let threads = side.saturating_mul(2).saturating_add(1);
    all_well(thread::map_indices(rt, alloc, threads, &work)?)
}

/// Runs a client and a server that make random calls at a hub with queues of two, which don't overflow, and then four
/// of each, until each client's thread has sent about this many requests.
pub fn stress<R: Threads + Wait + Clock + Sync>(
    rt: &R,
    alloc: Global,
    requests: u64,
) -> anyhow::Result<()> {
    for side in [1, 4] {
        let limits = Limits {
            max_clients: side,
            max_servers: side,
            max_active_requests_per_client: 2,
            max_response_buffer_size: 2,
            enable_fire_and_forget_requests: true,
            ..Limits::SMALLEST
        };
        let opened = OpenedHub::new(alloc, limits, UniqueNodeId(7))?;
        together::<Brand, R>(rt, alloc, opened, requests)?;
    }
    Ok(())
}
