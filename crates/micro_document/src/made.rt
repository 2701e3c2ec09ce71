//! What is made for a command before any of it is written.
use instance_table::Closed;
use items::{Items, Text};

/// The bytes for the output, the texts for talk, each of them for one write, and the receipt of the
/// table of instances over which a job was set, where one was.
#[derive(Drop)]
pub struct Made {
    pub out: Items<u8>,
    pub talk: Items<Text>,
    pub closed: Option<Closed>,
}
