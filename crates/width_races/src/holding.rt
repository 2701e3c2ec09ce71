//! A gate that holds whoever has claimed a cell.
use instance_core::{Bases, Cell, cell_number};
use micro_num::NoMemory;
use outside_io::{Gate, Point};
use std::alloc::Global;
use std::sync::atomic::{AtomicU64, Ordering};

/// A gate that holds a worker with a cell that it has claimed, until a width was answered to
/// another worker, for so many turns at most. It counts how often each cell passes it.
#[derive(Drop)]
pub struct HoldingGate {
    claimed: Vec<AtomicU64>,
    published: Vec<AtomicU64>,
    claims: AtomicU64,
    answers: AtomicU64,
    given_up: AtomicU64,
    turns: u32,
}

impl Gate for HoldingGate {
    fn pass(&self, _worker: u32, point: Point, place: u32) {
        match point {
            Point::Claimed => {
                count(self.claimed.as_slice(), place);
                self.claims.fetch_add(1, Ordering::SeqCst);
                self.hold();
            }
            Point::Published => count(self.published.as_slice(), place),
            _ => (),
        }
    }
}

impl HoldingGate {
    /// A gate for so many cells, none of which has passed.
    pub fn new(alloc: Global, cells: u32, turns: u32) -> Result<HoldingGate, NoMemory> {
        Ok(HoldingGate {
            claimed: zeros(alloc, cells)?,
            published: zeros(alloc, cells)?,
            claims: AtomicU64::new(0),
            answers: AtomicU64::new(0),
            given_up: AtomicU64::new(0),
            turns,
        })
    }

    /// Tells the gate that a width was answered.
    pub fn tell(&self) {
        self.answers.fetch_add(1, Ordering::SeqCst);
    }

    /// Waits until some worker has claimed a cell, for the turns of the gate.
    pub fn wait_for_claim(&self) {
        for _ in 0..self.turns {
            if self.claims.load(Ordering::SeqCst) != 0 {
                return;
            }
        }
        self.given_up.fetch_add(1, Ordering::SeqCst);
    }

    /// How many waits were given up.
    pub fn given_up(&self) -> u64 {
        self.given_up.load(Ordering::SeqCst)
    }

    /// How often a cell passed the gate, as a claimed and as a published one.
    pub fn passes(&self, cell: u32) -> (u64, u64) {
        (
            counted(self.claimed.as_slice(), cell),
            counted(self.published.as_slice(), cell),
        )
    }

    /// How many of the cells passed the gate once as claimed and once as published.
    pub fn passed_once(&self, fonts: &Bases, cells: &[Cell]) -> u32 {
        let mut once = 0u32;
        for cell in cells {
            if let Some(number) = cell_number(fonts, *cell) {
                if self.passes(number) == (1, 1) {
                    once = once.wrapping_add(1);
                }
            }
        }
        once
    }

    /// How often cells passed the gate as claimed and as published.
    pub fn all_passes(&self, fonts: &Bases) -> (u64, u64) {
        let mut claimed = 0u64;
        let mut published = 0u64;
        for number in 0..fonts.cell_count() {
            let passes = self.passes(number);
            claimed = claimed.wrapping_add(passes.0);
            published = published.wrapping_add(passes.1);
        }
        (claimed, published)
    }

    /// Waits until a width was answered since, for the turns of the gate.
    fn hold(&self) {
        let before = self.answers.load(Ordering::SeqCst);
        for _ in 0..self.turns {
            if self.answers.load(Ordering::SeqCst) != before {
                return;
            }
        }
        self.given_up.fetch_add(1, Ordering::SeqCst);
    }
}

/// Counts that stand at 0.
fn zeros(alloc: Global, cells: u32) -> Result<Vec<AtomicU64>, NoMemory> {
    let mut counts = Vec::with_capacity(alloc, cells as usize)?;
    for _ in 0..cells {
        counts.push(AtomicU64::new(0))?;
    }
    Ok(counts)
}

/// Counts one more at a place.
fn count(counts: &[AtomicU64], place: u32) {
    if let Some(count) = counts.get(place as usize) {
        count.fetch_add(1, Ordering::SeqCst);
    }
}

/// The count at a place.
fn counted(counts: &[AtomicU64], place: u32) -> u64 {
    match counts.get(place as usize) {
        Some(count) => count.load(Ordering::SeqCst),
        None => 0,
    }
}
