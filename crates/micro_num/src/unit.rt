//! The units of length (TeX: The Program, section 458).
/// A unit of length (TeX: The Program, section 458).
#[derive(Clone, Copy, Debug, PartialEq, Eq)]
pub enum Unit {
    /// Printer's point, 65536 scaled points.
    Pt,
    /// Inch, 72.27 pt.
    In,
    /// Pica, 12 pt.
    Pc,
    /// Centimetre, 1/2.54 in.
    Cm,
    /// Millimetre.
    Mm,
    /// Big point, 1/72 in.
    Bp,
    /// Didot point, 1238/1157 pt.
    Dd,
    /// Cicero, 12 dd.
    Cc,
    /// Scaled point.
    Sp,
}
