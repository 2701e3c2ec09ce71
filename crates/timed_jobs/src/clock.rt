//! How long a step took.
use std::io;
use std::time::{Clock, Instant};

/// The nanoseconds since a moment.
pub fn since<C: Clock>(clock: &C, start: &Instant) -> io::Result<u64> {
    Ok(u64::try_from(start.elapsed(clock)?.as_nanos()).unwrap_or(u64::MAX))
}
