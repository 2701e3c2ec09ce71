//! Workers that set the paragraphs of a job beside one another, over one table of the instances of
//! its fonts (Herlihy and Wing, Linearizability).
//!
//! [`work`] is what each worker runs: it draws paragraphs off the table until none is left, and
//! sets each over the table. What a paragraph comes to is the same whatever the others do.
//! [`set_all`] runs some workers in threads of their own, puts the pages in order and closes the
//! table: for any number of workers these are the pages of the job, and the owners are the
//! instances that they use. How one paragraph is set, and what the table promises, is the business
//! of the crates below; the file of the pages is that of a crate above.
#![tactic(auto)]

mod crew;
mod done;
mod slots;
mod worker;
mod workers;

pub use done::{DoneAt, Work};
pub use worker::work;
pub use workers::{SetJob, set_all};
