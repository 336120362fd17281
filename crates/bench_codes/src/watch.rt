//! What is said of a call: what it answered, and how long it took.
use anyhow::Result;
use std::rt::Clock;
use std::time::Instant;

/// Says a call's answer on standard output, and the nanoseconds since `start` on standard error.
pub(crate) fn say(
    rt: &(impl Print + Eprint + Clock),
    subject: &str,
    call: &str,
    start: Instant,
    answer: u64,
) -> Result<()> {
    let spent = start.elapsed(rt)?.as_nanos();
    println!(rt; "{subject} {call} {answer}")?;
    eprintln!(rt; "{subject} {call} {spent}")?;
    Ok(())
}
