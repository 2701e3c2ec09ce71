//! The workers that set a job.

/// So many workers, each in a thread of its own, and the gate that they pass.
#[derive(Drop)]
pub(crate) struct Crew<'a, R, G> {
    /// What the threads run on.
    pub(crate) rt: &'a R,
    /// How many there are, from 1 to 64.
    pub(crate) workers: u32,
    pub(crate) gate: &'a G,
}
