//! The command line as `clap` reads it: one simple command.
ghost use Rattle.std.specs.Prelude.{◌≡◌, IfOk};
ghost use Rattle.clap.specs.Simple.{app_of};
ghost use Rattle.micro_words.specs.CommandLine.{command_line as line_of_clap};

use clap::{Arg, ArgAction, Command};
use std::alloc::{AllocError, Global};

/// The arguments: COMMAND, FILES, `--workers` with a number and `--report`.
pub(crate) fn command_line<'a>(alloc: Global) -> Result<Command<'a>, AllocError>
    ensures { IfOk result (λ line. app_of line ≡ line_of_clap) }
{
    let command = Arg::new(alloc, "command").required(true);
    let files = Arg::new(alloc, "files").num_args(0..);
    let workers = Arg::new(alloc, "workers")
        .long("workers")
        .default_value("1");
    let report = Arg::new(alloc, "report")
        .long("report")
        .action(ArgAction::SetTrue);
    let line = Command::new(alloc, "pdfmicro");
    line.arg(command)?.arg(files)?.arg(workers)?.arg(report)
}
