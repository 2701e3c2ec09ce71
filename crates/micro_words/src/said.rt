//! What the texts and the flag that clap found say, before any of them is copied.
ghost use Rattle.std.specs.Prelude.{◌≡◌, IfOk, option_map, codes, map};
ghost use Rattle.clap.specs.Matches.{found_of};
ghost use Rattle.clap.specs.Walk.{first_of, rows_of};
ghost use Rattle.micro_words.specs.CommandLine.{given_in, is_set};
ghost use Rattle.micro_words.specs.Commands.{kind_named, cmd_given, number_for, files_for};
ghost use Rattle.micro_words.specs.Said.{cmd_said};

use crate::command::{Cmd, CommandKind};
use crate::numeral::number_up_to;
use clap::ArgMatches;
use items::{Items, Text};
use std::alloc::{AllocError, Global};

/// The most paragraphs that `gen` makes.
const MOST_PARAGRAPHS: u32 = 20_000;

/// The most workers.
const MOST_WORKERS: u32 = 64;

/// What the words say.
#[derive(Drop)]
pub(crate) struct Said<'m, 'a> {
    kind: CommandKind,
    workers: u32,
    texts: &'m [&'a str],
    number: u32,
    report: bool,
}

/// What the words that clap took say, if that is a command.
pub(crate) fn said_by<'m, 'a>(matches: &'m ArgMatches<'a>) -> Option<Said<'m, 'a>>
    ensures { option_map cmd_said result ≡ cmd_given (given_in (rows_of (found_of matches.now))) }
{
    let kind = kind_of(matches.get_str("command")?)?;
    let workers = number_up_to(MOST_WORKERS, matches.get_str("workers")?)?;
    let texts = matches.get_raw("files")?;
    if texts.len() != kind.text_count() {
        return None;
    }
    let number = number_of(kind, texts)?;
    let report = is_reported(matches);
    Some(Said {
        kind,
        workers,
        texts,
        number,
        report,
    })
}

/// The kind of command that has this name.
fn kind_of(name: &str) -> Option<CommandKind>
    ensures { result ≡ kind_named name.now }
{
    if name == "set" {
        return Some(CommandKind::Set);
    }
    if name == "breaks" {
        return Some(CommandKind::Breaks);
    }
    if name == "gen" {
        return Some(CommandKind::Gen);
    }
    None
}

/// How many paragraphs the texts of `gen` ask for. Every other command reads no number.
fn number_of(kind: CommandKind, texts: &[&str]) -> Option<u32>
    ensures { result ≡ number_for kind (map (λ text. text.now) texts.now) }
{
    match kind {
        CommandKind::Gen => match texts.first() {
            Some(text) => number_up_to(MOST_PARAGRAPHS, text),
            None => None,
        },
        CommandKind::Set | CommandKind::Breaks => Some(0),
    }
}

/// Whether the report is asked for.
fn is_reported(matches: &ArgMatches<'_>) -> bool
    ensures { result ≡ is_set (first_of (codes "report") (rows_of (found_of matches.now))) }
{
    match matches.get_str("report") {
        Some(text) => text == "true",
        None => false,
    }
}

impl<'m, 'a> Said<'m, 'a> {
    /// The command, with its texts copied.
    pub(crate) fn command(self, alloc: Global) -> Result<Cmd, AllocError>
        ensures { IfOk result (λ cmd. cmd ≡ cmd_said self.entry) }
    {
        Ok(Cmd {
            command: self.kind,
            files: files_of(alloc, self.kind, self.texts)?,
            number: self.number,
            workers: self.workers,
            report: self.report,
        })
    }
}

/// The files that a command reads.
fn files_of(alloc: Global, kind: CommandKind, texts: &[&str]) -> Result<Items<Text>, AllocError>
    ensures { IfOk result (λ files. files ≡ files_for kind (map (λ text. text.now) texts.now)) }
{
    match kind {
        CommandKind::Gen => Ok(Items::new(alloc)),
        CommandKind::Set | CommandKind::Breaks => copies(alloc, texts),
    }
}

/// A copy of each text.
fn copies(alloc: Global, texts: &[&str]) -> Result<Items<Text>, AllocError>
    ensures { IfOk result (λ files. files ≡ map (λ text. text.now) texts.now) }
{
    let mut files = Items::from_vec(Vec::with_capacity(alloc, texts.len())?);
    for text in texts {
        files.push(Text::from_str(alloc, text)?)?;
    }
    Ok(files)
}
