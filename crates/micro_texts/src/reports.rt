//! The report of a document.
ghost use Rattle.std.specs.Prelude.{◌≡◌, IfOk, length};
ghost use Rattle.micro_texts.specs.Reports.{instances_among, lines_on, report_line, report_of};
ghost use Rattle.micro_texts.specs.Reports.{report_text};

use instance_core::{Cell, Page};
use items::Text;
use micro_num::NoMemory;
use std::alloc::Global;

/// What a report tells of a document: how many paragraphs it has, how many lines these have
/// together, how many fonts its file defines, how many of those are expanded, and how long the file
/// is, in bytes. The types are such that no document has more.
#[derive(Clone, Copy, Debug, PartialEq, Eq)]
pub struct Report {
    pub paragraphs: u64,
    pub lines: u128,
    pub fonts: u64,
    pub instances: u64,
    pub bytes: u64,
}

/// How many lines pages have together.
fn lines_on(pages: &[Page]) -> u128
    ensures { result ≡ lines_on pages.now }
{
    let mut lines: u128 = 0;
    for page in pages {
        lines += page.lines.len() as u128;
    }
    lines
}

/// How many cells are those of expanded fonts.
fn instances_among(cells: &[Cell]) -> u64
    ensures { result ≡ instances_among cells.now }
{
    let mut instances: u64 = 0;
    for cell in cells {
        if cell.step != 0 {
            instances += 1;
        }
    }
    instances
}

/// The report of pages, one for each paragraph, of the cells that their file numbers as fonts, and
/// of the length of that file.
pub fn report_of(pages: &[Page], cells: &[Cell], bytes: u64) -> Report
    ensures { result ≡ report_of pages.now cells.now bytes }
{
    Report {
        paragraphs: pages.len() as u64,
        lines: lines_on(pages),
        fonts: cells.len() as u64,
        instances: instances_among(cells),
        bytes,
    }
}

/// The five lines of a report, as one text.
#[tactic(auto, unfolding(crate::specs::Reports::report_text))]
pub fn report_text(alloc: Global, report: &Report) -> Result<Text, NoMemory>
    ensures { IfOk result (λ text. text ≡ report_text report.now) }
{
    let Report {
        paragraphs,
        lines,
        fonts,
        instances,
        bytes,
    } = *report;
    let text = format!(in alloc;
        "paragraphs {paragraphs}\nlines {lines}\nfonts {fonts}\n\
        instances {instances}\nbytes {bytes}\n"
    )?;
    Ok(Text::from_string(text))
}
