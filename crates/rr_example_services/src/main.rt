//! Four services over the ports of one hub each, a file each: a remote procedure call, a parameter service, a
//! streaming query that the client ends, and a sensor that streams slices. The parts that need a contract are in
//! `rr_callers`.
#![tactic(auto)]

mod division;
mod parameters;
mod query;
mod sensor;

fn main(rt: HostRuntime) -> anyhow::Result<()> {
    division::show(&rt)?;
    parameters::show(&rt)?;
    query::show(&rt)?;
    sensor::show(&rt)
}
