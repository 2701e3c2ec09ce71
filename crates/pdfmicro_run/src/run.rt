//! The top call.
ghost use Rattle.std.specs.Prelude.{◌≡◌, ◌⊎◌, IfSome, None};
ghost use Rattle.micro_document.specs.Document.{Doc};
ghost use Rattle.micro_document.specs.Making.{IsBuiltBy};
ghost use Rattle.micro_document.specs.Words.{word_texts, workers_of};
ghost use Rattle.micro_texts.specs.Status.{status_of};
ghost use Rattle.micro_words.specs.Commands.{cmd_of};
ghost use Rattle.pdfmicro_run.specs.Headline.{Headline};
ghost use Rattle.pdfmicro_run.specs.Ran.{outside, Ran, Exact, Complete, IsWriting, Stays};

use crate::ending::RunEnd;
use crate::telling::tell;
use micro_document::{find, one_outcome};
use micro_texts::Answer;
use outside_io::{Gate, Shelf, Sink};
use std::alloc::Global;
use std::thread::Threads;

/// Carries out the words of a command line, of which the first is the program's name.
///
/// - `set JOB` reads a job and its fonts from the shelf in the order of declaration, sets each
///   paragraph as a page and writes the DVI file to the output, in pieces of 16,384 bytes; with
///   `--report` it then writes the report to `talk`.
/// - `breaks JOB` reads the same and writes a line for each paragraph to `talk`, each in one write.
/// - `gen N` makes a document of N paragraphs, 1 to 20000, and writes its report to `talk`.
///
/// What `set` promises is the clause `headline`:
///
/// > For every accepted job and fonts, every number of workers and every interleaving, the DVI
/// > bytes are those of the definition that sets the paragraphs one after another, with fonts
/// > numbered by first use; each expanded instance used is built by exactly one worker and no other
/// > is built; a refusal is the first stated fault in document order.
///
/// It stands on five premises. The shelf tells its files and gives their bytes, and the output
/// tells what was written to it; where they don't, the other clauses still bound what happens. No
/// read or write fails; else the answer blames one that the outside counted. Want of memory may
/// come in the place of any answer. Ways through a paragraph have the least demerits among those
/// that its rules leave, so a line that alone is left to a last pass counts none. And the table's
/// words are changed by its rule alone between any two steps, which `atomic_table` sees to.
///
/// For `set` and `gen` as many threads as the words say, from 1 to 64, draw the paragraphs and set
/// them beside one another, and pass the gate; the clause `workers` says that none but they built
/// instances. All is made before the first write.
///
/// The first fault is the answer, in the order of the words, the job's read, its grammar, each
/// font's read, its file, size and widths, the paragraphs, the file's length, the output and talk.
/// An answer that blames the outside comes only where the outside counted it. Each but `Done` and
/// `TalkFault` is told by its message, in one write to `talk`, whose failure changes nothing. After
/// every answer but `Done`, `OutFault` and `TalkFault` the output is as before.
pub fn run_micro<R: Threads + Sync, S: Shelf, O: Sink, T: Sink, G: Gate + Sync>(
    rt: &R,
    alloc: Global,
    words: &[String],
    shelf: &mut S,
    out: &mut O,
    talk: &mut T,
    gate: &G,
) -> RunEnd
    ensures status { result.status ≡ status_of result.answer }

    // Where the files are told and nothing outside fails, the definition's bytes are written, by
    // whatever workers, who built the used instances alone; or its fault is the answer.
    ensures headline { Headline (word_texts words.now)
        (outside (S.state shelf.old) (O.state out.old) (T.state talk.old))
        (outside (S.state shelf.new) (O.state out.new) (T.state talk.new)) result }

    // What was read, what it comes to, and what was written of it, whatever the outside told.
    ensures ran { Ran (Doc (word_texts words.now))
        (outside (S.state shelf.old) (O.state out.old) (T.state talk.old))
        (outside (S.state shelf.new) (O.state out.new) (T.state talk.new)) result }

    // Where the shelf tells its files, they determine the answer and what is written.
    ensures exact { Exact (Doc (word_texts words.now))
        (outside (S.state shelf.old) (O.state out.old) (T.state talk.old))
        (outside (S.state shelf.new) (O.state out.new) (T.state talk.new)) result }

    // A command that can be carried out is, where no read and no write fails.
    ensures complete { Complete (Doc (word_texts words.now))
        (outside (S.state shelf.old) (O.state out.old) (T.state talk.old))
        (outside (S.state shelf.new) (O.state out.new) (T.state talk.new)) result.answer }

    // The words say how many workers there were, and no other built an instance.
    ensures workers { IfSome result.closed
        (IsBuiltBy (workers_of (cmd_of (word_texts words.now)))) }

    // Words that are no command make this answer, memory apart, and nothing else makes it.
    ensures bad_words { cmd_of (word_texts words.now) ≡ None
        → (result.answer ≡ Answer.BadWords) ⊎ (result.answer ≡ Answer.NoMemory) }
    ensures only_words { result.answer ≡ Answer.BadWords
        → cmd_of (word_texts words.now) ≡ None }

    // Before any other answer than these three, no write to the output was tried.
    ensures out_unchanged { IsWriting result.answer ⊎ (out.new ≡ out.old) }

    // The outside keeps its files, and its counts never fall.
    ensures stays { Stays
        (outside (S.state shelf.old) (O.state out.old) (T.state talk.old))
        (outside (S.state shelf.new) (O.state out.new) (T.state talk.new)) }
{
    one_outcome();
    let found = find(rt, alloc, words, shelf, gate);
    tell(alloc, found, out, talk)
}
