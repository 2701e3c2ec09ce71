//! Whole runs, over files and outputs in memory: jobs with their answers, each command with what it
//! tells, an outside that fails, hostile jobs, and several workers; the fonts that they are set in,
//! read, refused and run; and generated documents.
//!
//! The crate has tests alone. What they expect was worked out by hand from the formats.
#![tactic(auto)]

#[cfg(test)]
mod code_runs;
#[cfg(test)]
mod commands;
#[cfg(test)]
mod documents;
#[cfg(test)]
mod hostile;
#[cfg(test)]
mod jobs;
#[cfg(test)]
mod messages;
#[cfg(test)]
mod outside;
#[cfg(test)]
mod runs;
#[cfg(test)]
mod tfm_faults;
#[cfg(test)]
mod tfm_reads;
#[cfg(test)]
mod workers;
