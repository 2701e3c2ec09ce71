//! The program `pdfmicro`: `pdfmicro set JOB` reads a job and its fonts from the current folder and
//! writes a DVI file on standard output.
#![tactic(auto)]

use outside_io::{FileShelf, NoGate, StdSink};
use pdfmicro_run::run_micro;
use std::process::ExitCode;
use std::{env, io};

/// The status where the words of the command line could not be had for want of memory.
const NO_MEMORY: u8 = 7;

/// The status where the runtime refuses the words for any other cause.
const NO_WORDS: u8 = 11;

/// The words of the command line.
fn words(rt: &HostRuntime) -> io::Result<Vec<String>> {
    let mut words = Vec::new(rt.alloc());
    for word in env::args(rt)? {
        words.push(word)?;
    }
    Ok(words)
}

fn main(rt: HostRuntime) -> ExitCode {
    match words(&rt) {
        Ok(words) => {
            let mut shelf = FileShelf::make(&rt);
            let mut out = StdSink::make(rt.stdout());
            let mut talk = StdSink::make(rt.stderr());
            let end = run_micro(
                &rt,
                rt.alloc(),
                words.as_slice(),
                &mut shelf,
                &mut out,
                &mut talk,
                &NoGate,
            );
            ExitCode::from(end.status)
        }
        Err(error) if error.kind() == io::ErrorKind::OutOfMemory => ExitCode::from(NO_MEMORY),
        Err(_) => ExitCode::from(NO_WORDS),
    }
}
