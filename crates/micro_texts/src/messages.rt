//! The messages: a line for each answer but that all went well, and that nothing can be told.
ghost use Rattle.std.specs.Prelude.{◌≡◌, ◌+◌, IfOk};
ghost use Rattle.job_fonts.specs.Faults.{font_fault_number};
ghost use Rattle.job_reading.specs.Faults.{fault_number};
ghost use Rattle.micro_texts.specs.Messages.{fixed_of, file_line, font_line, job_line, length_line};
ghost use Rattle.micro_texts.specs.Messages.{message_of, par_line, par_number, par_place};

use crate::answer::Answer;
use crate::fixed::fixed_line;
use hlist_build::ParFault;
use items::Text;
use job_fonts::FontFaultKind;
use job_reading::JobFaultKind;
use micro_num::NoMemory;
use para_workers::ParAt;
use std::alloc::Global;

/// How many items a paragraph may have.
const MAX_ITEMS: u64 = 16384;

#[tactic(auto, unfolding(crate::specs::Messages::job_line))]
fn job_line(alloc: Global, offset: u32, kind: JobFaultKind) -> Result<Text, NoMemory>
    ensures { IfOk result (λ line. line ≡ job_line offset (fault_number kind)) }
{
    let fault = kind.number();
    let line = format!(in alloc; "pdfmicro: job: offset {offset}: fault {fault}\n")?;
    Ok(Text::from_string(line))
}

/// The line of a font's fault, for which fonts count from 1.
#[tactic(auto, unfolding(crate::specs::Messages::font_line))]
fn font_line(alloc: Global, font: u32, kind: FontFaultKind, word: u32) -> Result<Text, NoMemory>
    ensures { IfOk result (λ line. line ≡ font_line (font + 1) word (font_fault_number kind)) }
{
    let number = font as u64 + 1;
    let fault = kind.number();
    let line = format!(in alloc; "pdfmicro: font {number}: word {word}: fault {fault}\n")?;
    Ok(Text::from_string(line))
}

/// The number of a paragraph's fault, from 1 to 5.
fn par_number(fault: ParFault) -> u8
    ensures { result ≡ par_number fault }
{
    match fault {
        ParFault::MissingChar { .. } => 1,
        ParFault::LigTooLong { .. } => 2,
        ParFault::TooManyItems => 3,
        ParFault::MixedExpansion { .. } => 4,
        ParFault::OutOfRange { .. } => 5,
        ParFault::NoMemory => 0,
    }
}

/// Where it is: an offset in the job, how many items there may be, or a font or a line from 1.
fn par_place(fault: ParFault) -> u64
    ensures { result ≡ par_place fault }
{
    match fault {
        ParFault::MissingChar { offset } => offset as u64,
        ParFault::LigTooLong { offset } => offset as u64,
        ParFault::TooManyItems => MAX_ITEMS,
        ParFault::MixedExpansion { font } => font as u64 + 1,
        ParFault::OutOfRange { line } => line as u64,
        ParFault::NoMemory => 0,
    }
}

#[tactic(auto, unfolding(crate::specs::Messages::par_line))]
fn par_line(alloc: Global, at: ParAt) -> Result<Text, NoMemory>
    ensures { IfOk result (λ line.
        line ≡ par_line at.paragraph (par_number at.fault) (par_place at.fault)) }
{
    let paragraph = at.paragraph;
    let fault = par_number(at.fault);
    let place = par_place(at.fault);
    let line = format!(in alloc; "pdfmicro: paragraph {paragraph}: fault {fault} at {place}\n")?;
    Ok(Text::from_string(line))
}

#[tactic(auto, unfolding(crate::specs::Messages::length_line))]
fn length_line(alloc: Global, bytes: u64) -> Result<Text, NoMemory>
    ensures { IfOk result (λ line. line ≡ length_line bytes) }
{
    let line = format!(in alloc; "pdfmicro: output of {bytes} bytes is too long\n")?;
    Ok(Text::from_string(line))
}

/// The line of a file: what went wrong with it.
#[tactic(auto, unfolding(crate::specs::Messages::file_line))]
fn file_line(alloc: Global, name: &str, wrong: &str) -> Result<Text, NoMemory>
    ensures { IfOk result (λ line. line ≡ file_line name.now wrong.now) }
{
    let line = format!(in alloc; "pdfmicro: {name}: {wrong}\n")?;
    Ok(Text::from_string(line))
}

/// A copy of the line that is always the same, where an answer has one.
fn copied_line(alloc: Global, answer: &Answer) -> Result<Option<Text>, NoMemory>
    ensures { IfOk result (λ line. line ≡ fixed_of answer.now) }
{
    match fixed_line(answer) {
        Some(line) => Ok(Some(Text::from_str(alloc, line)?)),
        None => Ok(None),
    }
}

/// The line that tells an answer, with its line feed: none for `Done` and `TalkFault`. The name is
/// that of the file of an answer that has one, as the shelf was asked for it; others don't use it.
/// It fails only for want of memory; where [`fixed_line`] gives the line, none is needed.
pub fn message(alloc: Global, answer: &Answer, name: &str) -> Result<Option<Text>, NoMemory>
    ensures { IfOk result (λ line. line ≡ message_of answer.now name.now) }
{
    match answer {
        Answer::Job { offset, kind } => Ok(Some(job_line(alloc, *offset, *kind)?)),
        Answer::Font { font, kind, word } => Ok(Some(font_line(alloc, *font, *kind, *word)?)),
        Answer::Par { at } => Ok(Some(par_line(alloc, *at)?)),
        Answer::DviTooLong { bytes } => Ok(Some(length_line(alloc, *bytes)?)),
        Answer::Absent { .. } => Ok(Some(file_line(alloc, name, "not found")?)),
        Answer::ReadFault { .. } => Ok(Some(file_line(alloc, name, "read failed")?)),
        Answer::FileTooLong { .. } => Ok(Some(file_line(alloc, name, "too long")?)),
        Answer::Done => Ok(None),
        Answer::TalkFault => Ok(None),
        Answer::BadWords => copied_line(alloc, answer),
        Answer::OutFault => copied_line(alloc, answer),
        Answer::NoMemory => copied_line(alloc, answer),
    }
}
