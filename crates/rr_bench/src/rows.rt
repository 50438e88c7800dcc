//! The rows: the timed operations, their names and their repetitions.
use crate::crowd::{ALONE, CLIENTS, HANDLES, Job, MOST, PASSED, POOLS, SERVERS, Shape, time_crowd};
use crate::locked::time_pair;
use crate::pages::time_pages;
use crate::shared::time_shared;
use crate::threads::Pace::{Alone, Call, Nap, Sleep};
use crate::threads::{Pace, time_threads};
use crate::trip::time_ports;
use anyhow::ensure;
use rr_slots::{KeptBody, SliceBody};
use std::alloc::Global;
use std::sync::Wait;
use std::thread::Threads;
use std::time::{Clock, Instant};

/// The sum of the answers, and the time that they took.
#[derive(Clone, Copy)]
pub struct Timed {
    /// The sum of the answers. Each is its question plus one, and the questions are 0, 1, ..
    pub sum: u64,
    /// In nanoseconds.
    pub nanos: u128,
}

impl Timed {
    /// Ends a measurement.
    pub fn since(rt: &impl Clock, start: Instant, sum: u64) -> anyhow::Result<Timed> {
        let nanos = start.elapsed(rt)?.as_nanos();
        Ok(Timed { sum, nanos })
    }
}

/// Adds the results of threads.
pub fn sum_of(sums: Vec<anyhow::Result<u64>>) -> anyhow::Result<u64> {
    let mut total = 0u64;
    for sum in sums {
        total = total.wrapping_add(sum?);
    }
    Ok(total)
}

/// The kind of round trips of a row.
#[derive(Clone, Copy)]
pub enum Work {
    /// A client and a server of `rr_ports`, whose messages are words.
    Word,
    /// The same with elements of 4,096 bytes, which are written in place.
    Page,
    /// The same with elements of 65,536 bytes.
    Large,
    /// The same with slices of words.
    Slice,
    /// The same with words, among other ports and handles.
    Crowd(Shape),
    /// Receives from empty queues there.
    Idle(Shape),
    /// Submissions at a hub of `rr_locked`.
    Pair,
    /// Submissions at a hub of `rr_shared`.
    Shared,
    /// Clients and servers of `rr_shared_ports`, and the number of each.
    Ports(Pace, usize, usize),
    /// A client and a server there in one thread, whose messages are slices of 64 KiB.
    Pages,
}

/// A row: its name, its number of threads, the bytes of a message, the questions of each client, the number of
/// answers if each asks once, and the kind of its round trips.
#[derive(Clone, Copy)]
pub struct Row(
    pub &'static str,
    pub u64,
    pub usize,
    pub u64,
    pub u64,
    pub Work,
);

/// The rows of `time`.
pub const TIMED: [Row; 16] = [
    Row("ports", 1, 8, 20_000, 1, Work::Word),
    Row("ports", 1, 4_096, 5_000, 1, Work::Page),
    Row("ports", 1, 65_536, 200, 1, Work::Large),
    Row("ports-slice", 1, 8, 20_000, 1, Work::Slice),
    Row("ports-slice", 1, 4_096, 1_000, 1, Work::Slice),
    Row("ports-slice", 1, 65_536, 50, 1, Work::Slice),
    Row("pair", 1, 8, 100_000, 1, Work::Pair),
    Row("pair", 2, 8, 100_000, 1, Work::Pair),
    TRIPS,
    Row("shared", 2, 8, 100_000, 1, Work::Shared),
    Row("shared", 8, 8, 6_250, 16, Work::Shared),
    Row("threads", 1, 8, 100_000, 1, Work::Ports(Alone, 1, 1)),
    Row("threads-call", 2, 8, 100_000, 1, Work::Ports(Call, 1, 1)),
    SLEEP,
    Row("threads-slice", 1, 65_536, 10_000, 1, Work::Pages),
    Row("threads-sleep", 8, 8, 10_000, 16, Work::Ports(Sleep, 4, 4)),
];

/// One thread at a hub of `rr_shared`.
pub const TRIPS: Row = Row("shared", 1, 8, 100_000, 1, Work::Shared);

/// Two threads that ask and two that answer there.
pub const FOUR: Row = Row("shared", 4, 8, 25_000, 4, Work::Shared);

/// Two threads that wait for each other and sleep.
pub const SLEEP: Row = Row("threads-sleep", 2, 8, 100_000, 1, Work::Ports(Sleep, 1, 1));

/// Two threads that also sleep at random times.
pub const NAP: Row = Row("threads-nap", 2, 8, 100_000, 1, Work::Ports(Nap, 1, 1));

/// Two such clients and four such servers.
pub const MANY: Row = Row("threads-nap", 6, 8, 100_000, 8, Work::Ports(Nap, 2, 4));

/// The rows of `grow`.
pub const GROWN: [Row; 9] = [
    Row("ports", 1, 8, 20_000, 1, Work::Crowd(ALONE)),
    Row("ports-idle", 1, 8, 20_000, 1, Work::Idle(ALONE)),
    Row("ports-pools", 1, 8, 20_000, 1, Work::Crowd(POOLS)),
    Row("ports-handles", 1, 8, 20_000, 1, Work::Crowd(HANDLES)),
    Row("ports-passed", 1, 8, 20_000, 1, Work::Crowd(PASSED)),
    Row("ports-servers", 1, 8, 1_000, 1, Work::Crowd(SERVERS)),
    Row("ports-servers-idle", 1, 8, 1_000, 64, Work::Idle(SERVERS)),
    Row("ports-clients", 1, 8, 10_000, 1, Work::Crowd(CLIENTS)),
    Row("ports-clients-idle", 1, 8, 10_000, 1, Work::Idle(CLIENTS)),
];

/// The rows of `grow` that take long to make.
pub const LARGEST: [Row; 2] = [
    Row("ports-many-clients", 1, 8, 10_000, 1, Work::Crowd(MOST)),
    Row("ports-many-clients-idle", 1, 8, 10_000, 1, Work::Idle(MOST)),
];

/// How often each row is timed.
const SAMPLES: usize = 7;

/// Makes each client of a row ask `trips` times.
fn made<R: Threads + Wait + Sync + Clock>(
    rt: &R,
    alloc: Global,
    row: Row,
    trips: u64,
) -> anyhow::Result<Timed> {
    let Row(_, threads, bytes, .., work) = row;
    match work {
        Work::Word => time_ports::<Option<u64>, R>(rt, alloc, 1, trips),
        Work::Page => time_ports::<KeptBody<[u64; 512]>, R>(rt, alloc, 1, trips),
        Work::Large => time_ports::<KeptBody<[u64; 8192]>, R>(rt, alloc, 1, trips),
        Work::Slice => time_ports::<SliceBody<u64>, R>(rt, alloc, bytes / 8, trips),
        Work::Crowd(shape) => time_crowd(rt, alloc, &shape, Job::Trips(trips)),
        Work::Idle(shape) => time_crowd(rt, alloc, &shape, Job::Looks(trips)),
        Work::Pair => time_pair(rt, alloc, threads, trips),
        Work::Shared => time_shared(rt, alloc, threads, trips),
        Work::Ports(pace, clients, servers) => {
            time_threads(rt, alloc, pace, clients, servers, trips)
        }
        Work::Pages => time_pages(rt, alloc, trips),
    }
}

/// Makes each client of a row ask `trips` times, and checks the sum of the answers.
fn checked<R: Threads + Wait + Sync + Clock>(
    rt: &R,
    alloc: Global,
    row: Row,
    trips: u64,
) -> anyhow::Result<Timed> {
    let timed = made(rt, alloc, row, trips)?;
    let sum = trips.wrapping_mul(trips.wrapping_add(1)) / 2;
    ensure!(
        timed.sum == sum.wrapping_mul(row.4),
        "{} came to {}",
        row.0,
        timed.sum
    );
    Ok(timed)
}

/// Makes each client of each row ask `trips` times, and prints the sums of the answers.
pub fn make<R: Threads + Wait + Sync + Clock + Print>(
    rt: &R,
    alloc: Global,
    rows: &[Row],
    trips: u64,
) -> anyhow::Result<()> {
    for row in rows {
        let Timed { sum, .. } = checked(rt, alloc, *row, trips)?;
        let Row(name, threads, bytes, ..) = *row;
        println!(rt;
            "{name}, threads: {threads}, bytes: {bytes}: {trips} round trips come to {sum}"
        )?;
    }
    Ok(())
}

/// Prints samples of each row: its name, threads, bytes, the nanoseconds, and the number of answers in that time.
pub fn sample<R: Threads + Wait + Sync + Clock + Print>(
    rt: &R,
    alloc: Global,
    rows: &[Row],
) -> anyhow::Result<()> {
    for row in rows {
        let Row(name, threads, bytes, trips, answers, _) = *row;
        for _ in 0..SAMPLES {
            let Timed { nanos, .. } = checked(rt, alloc, *row, trips)?;
            let count = trips.wrapping_mul(answers);
            println!(rt; "N\t{name}\t{threads}\t{bytes}\t{nanos}\t{count}")?;
        }
    }
    Ok(())
}
