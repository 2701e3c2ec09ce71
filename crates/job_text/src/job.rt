//! What a job says, as the steps behind take it.
use crate::font_decl::FontDecl;
use items::Items;
use liang_hyph::{Exception, Pattern};
use micro_num::{Par, Tables};

/// What a job says.
#[derive(Drop)]
pub struct Job {
    /// The fonts, in the order of declaration.
    pub fonts: Items<FontDecl>,
    /// The tables at the end of the job.
    pub tables: Tables,
    /// The hyphenation patterns, in order.
    pub patterns: Items<Pattern>,
    /// The exceptions, in order. Of two with equal letters the later counts.
    pub exceptions: Items<Exception>,
    /// The paragraphs, in order.
    pub pars: Items<Par>,
}
