//! The words of the command line, read as a command.
ghost use Rattle.std.specs.Prelude.{◌≡◌, ◌≢◌, Some, None, IfOk, IfErr, map, string_bytes};
ghost use Rattle.clap.specs.Values.{kind_of as kind_of_error};
ghost use Rattle.micro_words.specs.Commands.{cmd_of, IsKept};

use crate::command::Cmd;
use crate::fault::WordsFault;
use crate::line::command_line;
use crate::said::said_by;
use clap::Error;
use clap::error::ErrorKind;
use std::alloc::Global;

/// The command that the words of the command line say. The first is the program's name.
pub fn read_words(alloc: Global, words: &[String]) -> Result<Cmd, WordsFault>
    ensures read { IfOk result (λ cmd. cmd_of (map string_bytes words.now) ≡ Some cmd) }
    ensures bad { IfErr result (λ fault. fault ≡ WordsFault.BadWords
        → cmd_of (map string_bytes words.now) ≡ None) }
    ensures kept { IfOk result IsKept }
{
    let line = command_line(alloc)?;
    match line.try_get_matches_from(words) {
        Ok(matches) => match said_by(&matches) {
            Some(said) => Ok(said.command(alloc)?),
            None => Err(WordsFault::BadWords),
        },
        Err(error) => Err(refusal(&error)),
    }
}

/// Why clap refuses words.
fn refusal(error: &Error) -> WordsFault
    ensures { result ≡ WordsFault.BadWords → kind_of_error error.now ≢ ErrorKind.OutOfMemory }
{
    match error.kind() {
        ErrorKind::OutOfMemory => WordsFault::NoMemory,
        _ => WordsFault::BadWords,
    }
}
