//! Points of the work at which a worker may be held up.
/// Where in its work a worker passes the gate.
#[derive(Clone, Copy, Debug, PartialEq, Eq)]
pub enum Point {
    /// The worker begins.
    Started,
    /// It has claimed a cell of the instance table.
    Claimed,
    /// It has published a cell.
    Published,
    /// It has set a paragraph.
    Paragraph,
}

/// What a worker passes at points of its work: a test holds it up there, and a program does not.
///
/// A call returns, and nothing else is known of it. A call that crosses threads asks for `Sync`
/// too.
pub trait Gate {
    /// The worker's number, the point, and the place: the cell's number at `Claimed` and
    /// `Published`, the paragraph's at `Paragraph`, else 0.
    fn pass(&self, worker: u32, point: Point, place: u32);
}

/// A gate that holds nobody up.
#[derive(Clone, Copy, Debug, PartialEq, Eq)]
pub struct NoGate;

impl Gate for NoGate {
    fn pass(&self, _worker: u32, _point: Point, _place: u32) {}
}
