//! The document of a command: what its words and the bytes of its files come to, and the finding of
//! it on a shelf.
//!
//! A document is the next file that is wanted, the first fault, or what is written: the bytes for
//! the output, the texts for talk, and the instances that the pages use. [`find`] reads what the
//! document of the words wants in turn, until there is something to write or a reason why not.
//! Writing it, and the message of a fault, is the business of the crate that runs a command.
#![tactic(auto)]

mod breaking;
mod command;
mod crew;
mod files;
mod fonts;
mod generated;
mod laws;
mod made;
mod reports;
mod setting;
mod stop;
mod task;

pub use command::find;
pub use files::MOST_FILE_BYTES;
pub use laws::one_outcome;
pub use made::Made;
pub use stop::Stop;
