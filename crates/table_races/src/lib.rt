//! Crews of threads that race for the cells of one table of font instances, and its tests.
//!
//! Every worker visits all cells, builds those that it wins, and then draws until nothing is left.
//! The seats are joined and the table is closed, so each race ends with a receipt.
#![tactic(auto)]

mod crew;
mod fonts;
mod pair;
#[cfg(test)]
mod races;
#[cfg(test)]
mod row;
mod steps;

pub use crew::{Raced, join_seats, race, run, split_seats};
pub use fonts::{cells_of_table, small_font, wide_fonts};
pub use pair::{ShutOut, built_width, join_and_close, shut_out, table_of_two, two_draws};
pub use steps::{build, claim_at, look_at};
