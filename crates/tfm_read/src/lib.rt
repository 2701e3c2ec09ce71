//! Reads TFM files, the metrics of TeX's fonts, by the TFM description (TFtoPL; TeX: The Program,
//! part 30).
//!
//! The one call is [`read_tfm`]. It gives exactly the font that the bytes are, every number of
//! which is in its range ([`Tfm`] keeps that), or the first check that they fail and the word that
//! it failed at. The file is read forward once. Ligatures are not made here, and no size is scaled.
#![tactic(auto)]

mod character;
mod characters;
mod fault;
mod header;
mod indices;
mod lengths;
mod ligature;
mod programs;
mod reading;
mod sizes;
mod tfm;
mod words;

pub use character::CharInfo;
pub use fault::{TfmFault, TfmFaultKind};
pub use ligature::LigWord;
pub use reading::{counts_are_told, one_font, read_tfm};
pub use tfm::Tfm;
