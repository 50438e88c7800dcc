//! Threads at one shared hub: a dispatcher whose jobs four workers do, and a service of four clients.
//!
//! ```text
//! 1000 jobs: their numbers have 7069 divisors, which come to 823081
//! 4 clients: 200 answers, which come to 10200
//! ```
#![tactic(auto)]

mod clients;
mod jobs;

fn main(rt: HostRuntime) -> anyhow::Result<()> {
    let jobs::Done { count, sum } = jobs::run(&rt, rt.alloc())?;
    println!(rt;
        "{} jobs: their numbers have {count} divisors, which come to {sum}",
        jobs::JOBS
    )?;
    let clients::Served { answers, sum } = clients::run(&rt, rt.alloc())?;
    println!(rt;
        "{} clients: {answers} answers, which come to {sum}",
        clients::CLIENTS
    )?;
    Ok(())
}
