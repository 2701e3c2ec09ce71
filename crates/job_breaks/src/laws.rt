//! What is known of the lines of a job that was read, and of each of its lines.
ghost use Rattle.std.specs.Prelude.{◌≡◌, List, IsSome};
ghost use Rattle.font_stock.specs.declared.font.Font.{Font};
ghost use Rattle.liang_hyph.specs.Table.{IsMadeOf, PatternTable};
ghost use Rattle.hlist_hyph.specs.Hyphenated.{places_in};
ghost use Rattle.job_text.specs.declared.job.Job.{Job};
ghost use Rattle.paragraph_breaks.specs.Passes.{Paragraph};
ghost use Rattle.job_breaks.specs.Lines.{broken_lines, lines_from, taken_of};

/// With a table that is made of a job's patterns and exceptions, its paragraphs give its lines.
pub fn lines_are_those_of_the_job()
    ensures { (table : PatternTable) (job : Job) (stock : List Font)
        → IsMadeOf table job.patterns job.exceptions
        → lines_from job.tables (places_in table) stock 1 job.pars ≡ broken_lines job stock }
{}

/// Of the passes by which a paragraph is broken there is always one that is taken: so a paragraph
/// that has a list has the line of that pass.
pub fn every_paragraph_is_broken()
    ensures { (p : Paragraph) → IsSome (taken_of p) }
{}
