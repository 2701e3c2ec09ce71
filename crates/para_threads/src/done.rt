//! What a worker has done.
use hlist_build::ParFault;
use instance_core::Page;
use instance_table::Seat;
use micro_num::NoMemory;

/// What became of a paragraph that was drawn.
#[derive(Drop)]
pub struct DoneAt {
    /// The number that was drawn: the paragraph's place among those of the job, from 0.
    pub place: u32,
    /// Its page, or why it can't be set. Want of memory is none of these reasons.
    pub page: Result<Page, ParFault>,
}

/// What a worker comes back with.
#[derive(Drop)]
pub struct Work {
    /// Its seat.
    pub seat: Seat,
    /// What became of each paragraph that it drew, in the order in which it drew them.
    pub done: Result<Vec<DoneAt>, NoMemory>,
}
