//! Gates that hold workers until others have got on, for so many turns at most.
use micro_num::NoMemory;
use outside_io::{Gate, Point};
use std::alloc::Global;
use std::sync::atomic::{AtomicU64, Ordering};

/// How often each worker of a few has passed a point, and how often each paragraph was passed.
#[derive(Drop)]
struct Passes {
    by_worker: Vec<AtomicU64>,
    by_paragraph: Vec<AtomicU64>,
}

impl Passes {
    /// None, of workers and paragraphs whose numbers are below these.
    fn new(alloc: Global, workers: u32, paragraphs: u32) -> Result<Passes, NoMemory> {
        Ok(Passes {
            by_worker: zeros(alloc, workers)?,
            by_paragraph: zeros(alloc, paragraphs)?,
        })
    }

    /// Counts a paragraph that a worker has passed.
    fn tell(&self, worker: u32, paragraph: u32) {
        if let Some(count) = self.by_worker.get(worker as usize) {
            count.fetch_add(1, Ordering::SeqCst);
        }
        if let Some(count) = self.by_paragraph.get(paragraph as usize) {
            count.fetch_add(1, Ordering::SeqCst);
        }
    }

    /// The most paragraphs that another worker has passed.
    fn most_of_others(&self, worker: u32) -> u64 {
        let mut most = 0u64;
        for (other, count) in self.by_worker.iter().enumerate() {
            if other != worker as usize {
                most = most.max(count.load(Ordering::SeqCst));
            }
        }
        most
    }

    /// How often a paragraph was passed.
    fn of_paragraph(&self, paragraph: u32) -> u64 {
        match self.by_paragraph.get(paragraph as usize) {
            Some(count) => count.load(Ordering::SeqCst),
            None => 0,
        }
    }

    /// How many paragraphs a worker has passed.
    fn of_worker(&self, worker: u32) -> u64 {
        match self.by_worker.get(worker as usize) {
            Some(count) => count.load(Ordering::SeqCst),
            None => 0,
        }
    }
}

/// A gate that holds the worker that claims an instance until another worker has set a paragraph,
/// and a worker that has set a paragraph until an instance was claimed.
#[derive(Drop)]
pub struct BuildGate {
    passes: Passes,
    claims: AtomicU64,
    given_up: AtomicU64,
    turns: u32,
}

impl Gate for BuildGate {
    fn pass(&self, worker: u32, point: Point, place: u32) {
        match point {
            Point::Claimed => {
                self.claims.fetch_add(1, Ordering::SeqCst);
                self.wait_for_paragraph(worker);
            }
            Point::Paragraph => {
                self.passes.tell(worker, place);
                self.wait_for_claim();
            }
            _ => (),
        }
    }
}

impl BuildGate {
    /// A gate for workers and paragraphs whose numbers are below these.
    pub fn new(
        alloc: Global,
        workers: u32,
        paragraphs: u32,
        turns: u32,
    ) -> Result<BuildGate, NoMemory> {
        Ok(BuildGate {
            passes: Passes::new(alloc, workers, paragraphs)?,
            claims: AtomicU64::new(0),
            given_up: AtomicU64::new(0),
            turns,
        })
    }

    /// How often a paragraph was passed.
    pub fn of_paragraph(&self, paragraph: u32) -> u64 {
        self.passes.of_paragraph(paragraph)
    }

    /// How many paragraphs a worker has passed.
    pub fn of_worker(&self, worker: u32) -> u64 {
        self.passes.of_worker(worker)
    }

    /// How many instances were claimed.
    pub fn claims(&self) -> u64 {
        self.claims.load(Ordering::SeqCst)
    }

    /// How many waits were given up.
    pub fn given_up(&self) -> u64 {
        self.given_up.load(Ordering::SeqCst)
    }

    fn wait_for_paragraph(&self, worker: u32) {
        for _ in 0..self.turns {
            if self.passes.most_of_others(worker) != 0 {
                return;
            }
        }
        self.given_up.fetch_add(1, Ordering::SeqCst);
    }

    fn wait_for_claim(&self) {
        for _ in 0..self.turns {
            if self.claims.load(Ordering::SeqCst) != 0 {
                return;
            }
        }
        self.given_up.fetch_add(1, Ordering::SeqCst);
    }
}

/// A gate that holds the worker that is the first to have set a paragraph until another worker has
/// set so many.
#[derive(Drop)]
pub struct DrawGate {
    passes: Passes,
    arrivals: AtomicU64,
    given_up: AtomicU64,
    paragraphs: u64,
    turns: u32,
}

impl Gate for DrawGate {
    fn pass(&self, worker: u32, point: Point, place: u32) {
        if let Point::Paragraph = point {
            self.passes.tell(worker, place);
            if self.arrivals.fetch_add(1, Ordering::SeqCst) == 0 {
                self.hold(worker);
            }
        }
    }
}

impl DrawGate {
    /// A gate for workers and paragraphs whose numbers are below these, that waits for so many
    /// paragraphs.
    pub fn new(
        alloc: Global,
        workers: u32,
        paragraphs: u32,
        awaited: u64,
        turns: u32,
    ) -> Result<DrawGate, NoMemory> {
        Ok(DrawGate {
            passes: Passes::new(alloc, workers, paragraphs)?,
            arrivals: AtomicU64::new(0),
            given_up: AtomicU64::new(0),
            paragraphs: awaited,
            turns,
        })
    }

    /// How often a paragraph was passed.
    pub fn of_paragraph(&self, paragraph: u32) -> u64 {
        self.passes.of_paragraph(paragraph)
    }

    /// How many waits were given up.
    pub fn given_up(&self) -> u64 {
        self.given_up.load(Ordering::SeqCst)
    }

    fn hold(&self, worker: u32) {
        for _ in 0..self.turns {
            if self.passes.most_of_others(worker) >= self.paragraphs {
                return;
            }
        }
        self.given_up.fetch_add(1, Ordering::SeqCst);
    }
}

/// Counts that stand at 0.
fn zeros(alloc: Global, many: u32) -> Result<Vec<AtomicU64>, NoMemory> {
    let mut counts = Vec::with_capacity(alloc, many as usize)?;
    for _ in 0..many {
        counts.push(AtomicU64::new(0))?;
    }
    Ok(counts)
}
