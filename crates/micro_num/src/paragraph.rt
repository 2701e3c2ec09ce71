//! A paragraph as a job says it, before anything is worked out.
use crate::{Params, Part, ShapeLine};
use items::Items;

/// A part, and where its first token begins in the source, in bytes.
#[derive(Drop)]
pub struct PartAt {
    pub offset: u32,
    pub part: Part,
}

/// A paragraph: its parameters, whether it begins with an indent, the shape of its lines, which is
/// empty where it has none, and its parts in order.
#[derive(Drop)]
pub struct Par {
    pub params: Params,
    pub indent: bool,
    pub shape: Items<ShapeLine>,
    pub parts: Items<PartAt>,
}
