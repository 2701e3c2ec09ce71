//! A font as a job declares it.
use font_stock::{Expand, FontCodes, Size};
use items::Items;

/// A font as a job declares it.
#[derive(Drop)]
pub struct FontDecl {
    /// The name of its file, without `.tfm`: 1 to 40 letters, digits and `-`.
    pub name: Items<u8>,
    /// The size at which it is asked for.
    pub size: Size,
    /// What is said of its characters.
    pub codes: FontCodes,
    /// How far it may be expanded, if it may.
    pub expand: Option<Expand>,
}
