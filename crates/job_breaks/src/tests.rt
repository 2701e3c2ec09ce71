//! Jobs in a font whose characters are all half a size wide, and the lines of their paragraphs,
//! worked out by hand.
use crate::lines::break_pars;
use hlist_build::ParFault;
use items::{Items, Text};
use para_workers::{ParAt, SetFault};
use std::alloc::Global;
use std::test::Fail;
use test_fonts::tiny10;
use test_jobs::{Document, read_document};

/// The lines of a job's paragraphs, or the first paragraph that has none.
fn lines_of(alloc: Global, job: &[u8]) -> Result<Result<Items<Text>, SetFault>, Fail> {
    let Document {
        job,
        patterns,
        stock,
    } = read_document(alloc, job, &tiny10(alloc)?)?;
    Ok(break_pars(alloc, job.pars.as_slice(), &job.tables, &patterns, &stock))
}

#[test]
fn a_paragraph_of_two_lines_is_told(rt: HostRuntime) -> Result<(), Fail> {
    let job = b"\\font\\f=tiny10 \\f\n\\hsize=24pt\n\\noindent aa bb cc dd\n";
    let lines = lines_of(rt.alloc(), job)??;
    assert_eq!(rt; lines.len(), 1);
    assert_eq!(rt;
        lines.as_slice()[0].as_str(),
        "paragraph 1 pass 2 total 43124 breaks 5 13\n"
    );
    Ok(())
}

#[test]
fn each_paragraph_has_its_number_and_its_line(rt: HostRuntime) -> Result<(), Fail> {
    let job = b"\\font\\f=tiny10 \\f\n\\hsize=15pt\n\\noindent abc\n\n\
        \\hsize=24pt \\noindent aa bb cc dd\n\n\\hsize=10pt \\noindent abc\n";
    let lines = lines_of(rt.alloc(), job)??;
    let wanted: [&str; 3] = [
        "paragraph 1 pass 1 total 100 breaks 5\n",
        "paragraph 2 pass 2 total 43124 breaks 5 13\n",
        "paragraph 3 pass 2 total 0 breaks 5\n",
    ];
    assert_eq!(rt; lines.len(), wanted.len());
    for (line, told) in lines.as_slice().iter().zip(wanted) {
        assert_eq!(rt; line.as_str(), told);
    }
    Ok(())
}

#[test]
fn a_missing_character_is_told_with_its_paragraph(rt: HostRuntime) -> Result<(), Fail> {
    let job = b"\\font\\f=tiny10 \\f\na\n\n\\char200 a\n\na\n";
    let at = ParAt {
        paragraph: 2,
        fault: ParFault::MissingChar { offset: 21 },
    };
    assert_eq!(rt;
        lines_of(rt.alloc(), job)?.err(),
        Some(SetFault::Par { at })
    );
    Ok(())
}

#[test]
fn no_paragraphs_give_no_lines(rt: HostRuntime) -> Result<(), Fail> {
    let lines = lines_of(rt.alloc(), b"\\font\\f=tiny10 \\f\n\\hsize=100pt\n")??;
    assert_eq!(rt; lines.len(), 0);
    Ok(())
}
