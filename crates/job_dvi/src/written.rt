//! What the writing of a job's pages gives.
use items::Items;
use renumber::Numbering;

/// A DVI file, and the numbering of its fonts: each font as it is and each instance that its pages
/// use, by first use.
#[derive(Drop)]
pub struct Written {
    pub bytes: Items<u8>,
    pub numbering: Numbering,
}
