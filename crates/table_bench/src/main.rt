//! The program `table_bench`: works on a table of 300 cells in threads, for a script to time.
//!
//! Its words are the kind of work, `builds`, `claims` or `loads`, the number of threads, and how
//! often each thread goes over the cells. It prints how many of them it made.
#![tactic(auto)]

mod labour;

use labour::{Work, do_work};
use std::process::ExitCode;
use std::{env, io};

/// The status where the words aren't these, or memory runs out.
const FAILED: u8 = 1;

/// What is asked for: the work, the threads, and how often each goes over the cells.
#[derive(Drop)]
struct Order {
    kind: Work,
    threads: u16,
    times: u32,
}

/// What the words ask for.
fn order_of(words: &[String]) -> Option<Order> {
    if words.len() != 4 {
        return None;
    }
    let kind = match words[1].as_str() {
        "builds" => Work::Builds,
        "claims" => Work::Claims,
        "loads" => Work::Loads,
        _ => return None,
    };
    let threads = words[2].parse::<u16>().ok()?;
    let times = words[3].parse::<u32>().ok()?;
    Some(Order {
        kind,
        threads,
        times,
    })
}

fn main(rt: HostRuntime) -> io::Result<ExitCode> {
    let mut words = Vec::new(rt.alloc());
    for word in env::args(&rt)? {
        words.push(word)?;
    }
    let Some(order) = order_of(words.as_slice()) else {
        return Ok(ExitCode::from(FAILED));
    };
    let Order {
        kind,
        threads,
        times,
    } = order;
    match do_work(&rt, rt.alloc(), kind, threads as u32, times) {
        Ok(made) => {
            println!(rt; "{made}")?;
            Ok(ExitCode::from(0))
        }
        Err(_) => Ok(ExitCode::from(FAILED)),
    }
}
