//! A program on the library: one thread with `decode` and `apply`, and two threads at one lock-free home.
#![tactic(auto)]

mod alone;
mod together;

fn main(rt: HostRuntime) -> anyhow::Result<()> {
    alone::report(&rt)?;
    together::report(&rt)
}
