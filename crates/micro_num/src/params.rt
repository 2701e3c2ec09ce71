//! The parameters of a paragraph, and the values that they have in plain TeX
//! (TeX: The Program, sections 236 and 247; The TeXbook, appendix B).
ghost use Rattle.std.specs.Prelude.{◌≡◌};
ghost use Rattle.micro_num.specs.Plain.{plain_params, rigid as rigid_glue, fil as fil_glue};

use crate::{Glue, Sp};

/// A point, in sp.
const POINT: Sp = 65536;

/// The parameters of a paragraph, each named as the word that assigns it. Penalties, demerits and
/// levels are whole numbers, lengths are in scaled points.
#[derive(Clone, Copy, Debug, PartialEq, Eq)]
pub struct Params {
    pub pretolerance: i32,
    pub tolerance: i32,
    pub linepenalty: i32,
    pub hyphenpenalty: i32,
    pub exhyphenpenalty: i32,
    pub adjdemerits: i32,
    pub doublehyphendemerits: i32,
    pub finalhyphendemerits: i32,
    pub lefthyphenmin: i32,
    pub righthyphenmin: i32,
    pub pdfprotrudechars: i32,
    pub pdfadjustspacing: i32,
    pub hsize: Sp,
    pub parindent: Sp,
    pub lineskiplimit: Sp,
    pub emergencystretch: Sp,
    pub looseness: i32,
    pub hangafter: i32,
    pub hangindent: Sp,
    pub baselineskip: Glue,
    pub lineskip: Glue,
    pub parfillskip: Glue,
    pub leftskip: Glue,
    pub rightskip: Glue,
    pub spaceskip: Glue,
    pub xspaceskip: Glue,
}

impl Params {
    /// What holds before a job assigns anything: the values of plain TeX, where it has the
    /// parameter.
    #[tactic(auto, unfolding(crate::specs::Plain::plain_params))]
    pub fn plain() -> Params
        ensures { result ≡ plain_params }
    {
        let none = rigid(0);
        Params {
            pretolerance: 100,
            tolerance: 200,
            linepenalty: 10,
            hyphenpenalty: 50,
            exhyphenpenalty: 50,
            adjdemerits: 10000,
            doublehyphendemerits: 10000,
            finalhyphendemerits: 5000,
            lefthyphenmin: 2,
            righthyphenmin: 3,
            pdfprotrudechars: 0,
            pdfadjustspacing: 0,
            hsize: 30785863,
            parindent: 20 * POINT,
            lineskiplimit: 0,
            emergencystretch: 0,
            looseness: 0,
            hangafter: 1,
            hangindent: 0,
            baselineskip: rigid(12 * POINT),
            lineskip: rigid(POINT),
            parfillskip: fil(),
            leftskip: none,
            rightskip: none,
            spaceskip: none,
            xspaceskip: none,
        }
    }
}

/// A glue that neither stretches nor shrinks.
fn rigid(width: Sp) -> Glue
    ensures { result ≡ rigid_glue width }
{
    Glue {
        width,
        stretch: 0,
        order: 0,
        shrink: 0,
    }
}

/// A glue that fills a line.
fn fil() -> Glue
    ensures { result ≡ fil_glue }
{
    Glue {
        width: 0,
        stretch: POINT,
        order: 1,
        shrink: 0,
    }
}
