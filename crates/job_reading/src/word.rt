//! The control words that have a meaning of their own, in one table.
//!
//! They are TeX's primitives of these names, as far as this language has them (TeX: The Program,
//! sections 226, 230, 238, 248 and 265), and pdfTeX's.

/// A control word that has a meaning of its own.
#[derive(Clone, Copy, Debug, PartialEq, Eq)]
pub enum Word {
    ParEnd,
    Relax,
    Noindent,
    Bye,
    End,
    Char,
    Kern,
    Hskip,
    Penalty,
    Discretionary,
    Parshape,
    Declaration(Declaration),
    Integer(IntegerParameter),
    Dimension(DimensionParameter),
    Glue(GlueParameter),
}

/// A word that declares something, before the first paragraph alone.
#[derive(Clone, Copy, Debug, PartialEq, Eq)]
pub enum Declaration {
    Font,
    Lpcode,
    Rpcode,
    Efcode,
    Pdffontexpand,
    Hyphenchar,
    Sfcode,
    Lccode,
    Patterns,
    Hyphenation,
}

/// A parameter that is a whole number.
#[derive(Clone, Copy, Debug, PartialEq, Eq)]
pub enum IntegerParameter {
    Pretolerance,
    Tolerance,
    Linepenalty,
    Hyphenpenalty,
    Exhyphenpenalty,
    Adjdemerits,
    Doublehyphendemerits,
    Finalhyphendemerits,
    Lefthyphenmin,
    Righthyphenmin,
    Pdfprotrudechars,
    Pdfadjustspacing,
    Looseness,
    Hangafter,
}

/// A parameter that is a length.
#[derive(Clone, Copy, Debug, PartialEq, Eq)]
pub enum DimensionParameter {
    Hsize,
    Parindent,
    Lineskiplimit,
    Emergencystretch,
    Hangindent,
}

/// A parameter that is a glue.
#[derive(Clone, Copy, Debug, PartialEq, Eq)]
pub enum GlueParameter {
    Baselineskip,
    Lineskip,
    Parfillskip,
    Leftskip,
    Rightskip,
    Spaceskip,
    Xspaceskip,
}

/// The control words that have a meaning of their own, by their names.
pub const RESERVED: [(&[u8], Word); 47] = [
    (b"par", Word::ParEnd),
    (b"relax", Word::Relax),
    (b"noindent", Word::Noindent),
    (b"bye", Word::Bye),
    (b"end", Word::End),
    (b"char", Word::Char),
    (b"kern", Word::Kern),
    (b"hskip", Word::Hskip),
    (b"penalty", Word::Penalty),
    (b"discretionary", Word::Discretionary),
    (b"parshape", Word::Parshape),
    (b"font", Word::Declaration(Declaration::Font)),
    (b"lpcode", Word::Declaration(Declaration::Lpcode)),
    (b"rpcode", Word::Declaration(Declaration::Rpcode)),
    (b"efcode", Word::Declaration(Declaration::Efcode)),
    (
        b"pdffontexpand",
        Word::Declaration(Declaration::Pdffontexpand),
    ),
    (b"hyphenchar", Word::Declaration(Declaration::Hyphenchar)),
    (b"sfcode", Word::Declaration(Declaration::Sfcode)),
    (b"lccode", Word::Declaration(Declaration::Lccode)),
    (b"patterns", Word::Declaration(Declaration::Patterns)),
    (b"hyphenation", Word::Declaration(Declaration::Hyphenation)),
    (
        b"pretolerance",
        Word::Integer(IntegerParameter::Pretolerance),
    ),
    (b"tolerance", Word::Integer(IntegerParameter::Tolerance)),
    (b"linepenalty", Word::Integer(IntegerParameter::Linepenalty)),
    (
        b"hyphenpenalty",
        Word::Integer(IntegerParameter::Hyphenpenalty),
    ),
    (
        b"exhyphenpenalty",
        Word::Integer(IntegerParameter::Exhyphenpenalty),
    ),
    (b"adjdemerits", Word::Integer(IntegerParameter::Adjdemerits)),
    (
        b"doublehyphendemerits",
        Word::Integer(IntegerParameter::Doublehyphendemerits),
    ),
    (
        b"finalhyphendemerits",
        Word::Integer(IntegerParameter::Finalhyphendemerits),
    ),
    (
        b"lefthyphenmin",
        Word::Integer(IntegerParameter::Lefthyphenmin),
    ),
    (
        b"righthyphenmin",
        Word::Integer(IntegerParameter::Righthyphenmin),
    ),
    (
        b"pdfprotrudechars",
        Word::Integer(IntegerParameter::Pdfprotrudechars),
    ),
    (
        b"pdfadjustspacing",
        Word::Integer(IntegerParameter::Pdfadjustspacing),
    ),
    (b"looseness", Word::Integer(IntegerParameter::Looseness)),
    (b"hangafter", Word::Integer(IntegerParameter::Hangafter)),
    (b"hsize", Word::Dimension(DimensionParameter::Hsize)),
    (b"parindent", Word::Dimension(DimensionParameter::Parindent)),
    (
        b"lineskiplimit",
        Word::Dimension(DimensionParameter::Lineskiplimit),
    ),
    (
        b"emergencystretch",
        Word::Dimension(DimensionParameter::Emergencystretch),
    ),
    (
        b"hangindent",
        Word::Dimension(DimensionParameter::Hangindent),
    ),
    (b"baselineskip", Word::Glue(GlueParameter::Baselineskip)),
    (b"lineskip", Word::Glue(GlueParameter::Lineskip)),
    (b"parfillskip", Word::Glue(GlueParameter::Parfillskip)),
    (b"leftskip", Word::Glue(GlueParameter::Leftskip)),
    (b"rightskip", Word::Glue(GlueParameter::Rightskip)),
    (b"spaceskip", Word::Glue(GlueParameter::Spaceskip)),
    (b"xspaceskip", Word::Glue(GlueParameter::Xspaceskip)),
];
