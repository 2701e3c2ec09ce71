//! A command of the program, as its words say it.
ghost use Rattle.std.specs.Prelude.{◌≡◌};
ghost use Rattle.micro_words.specs.Commands.{command_number, text_count};

use items::{Items, Text};

/// Which command the words name.
#[derive(Clone, Copy, Debug, PartialEq, Eq)]
pub enum CommandKind {
    /// Sets a job: writes its DVI file.
    Set,
    /// Breaks the paragraphs of a job: writes where.
    Breaks,
    /// Makes a document and sets it: writes the report.
    Gen,
}

impl CommandKind {
    /// Its number among the commands, from 1.
    pub fn number(self) -> u8
        ensures { result ≡ command_number self }
    {
        match self {
            CommandKind::Set => 1,
            CommandKind::Breaks => 2,
            CommandKind::Gen => 3,
        }
    }

    /// How many texts follow its name.
    pub(crate) fn text_count(self) -> usize
        ensures { result ≡ text_count self }
    {
        match self {
            CommandKind::Set | CommandKind::Breaks | CommandKind::Gen => 1,
        }
    }
}

/// What the words say.
#[derive(Drop)]
pub struct Cmd {
    /// The command.
    pub command: CommandKind,
    /// The names of the files that it reads. `gen` reads none.
    pub files: Items<Text>,
    /// How many paragraphs `gen` makes, from 1 to 20000; else 0.
    pub number: u32,
    /// How many workers set paragraphs, from 1 to 64.
    pub workers: u32,
    /// Whether the report is written.
    pub report: bool,
}
