//! Jobs in expanded fonts, whose pages and files were worked out by hand from TeX: The Program and
//! the pdfTeX manual, by several numbers of workers.
ghost use Rattle.std.specs.Prelude.{◌≡◌, ◌≤◌, length};
ghost use Rattle.job_text.specs.Fits.{JobFits};

use crate::set_document;
use hlist_build::ParFault;
use instance_core::{Cell, Owner, Packed, Page};
use outside_io::NoGate;
use para_threads::set_all;
use para_workers::{ParAt, SetFault};
use std::alloc::Global;
use std::test::*;
use std::thread::Threads;
use test_fonts::tiny10;
use test_jobs::{Document, EXPANDED, NARROW_AND_WIDE, TWO_FAULTS, read_document};

/// A step of the first font.
fn cell(step: i32) -> Cell {
    Cell { font: 0, step }
}

/// The glyphs of a line, with their cell and width, stand at these places.
fn has_glyphs(line: &Packed, cell: Cell, advance: i32, places: &[i32]) -> bool {
    let glyphs = line.glyphs.as_slice();
    glyphs.len() == places.len()
        && glyphs.iter().zip(places).all(|(glyph, place)| {
            glyph.cell == cell && glyph.advance == advance && glyph.x == *place
        })
}

/// The page is that of the expanded paragraph.
fn is_wide_page(page: &Page) -> bool {
    let [first, second] = page.lines.as_slice() else {
        return false;
    };
    (first.baseline, second.baseline) == (327680, 1114112)
        && has_glyphs(&first.line, cell(20), 334233, &[0, 334233, 904398, 1238631])
        && has_glyphs(&second.line, cell(0), 327680, &[0, 327680, 819200, 1146880])
}

/// The owners are those of these instances, each built by one of so many workers.
fn are_owners(owners: &[Owner], cells: &[Cell], workers: u32) -> bool {
    owners.len() == cells.len()
        && owners.iter().zip(cells).all(|(owner, cell)| {
            owner.cell == *cell && owner.worker >= 1 && owner.worker <= workers
        })
}

/// By so many workers a document has these fonts by first use, of which these are built, each once,
/// and the file that one worker gives.
fn is_right<R: Threads + Sync>(
    rt: &R,
    alloc: Global,
    document: &Document,
    workers: u32,
    numbered: &[Cell],
    built: &[Cell],
) -> anyhow::Result<bool>
    requires fits { JobFits document.now.job }
    requires fonts { length document.now.stock ≡ length document.now.job.fonts }
    requires some { 1 ≤ workers }
    requires few { workers ≤ 64 }
{
    let one = set_document(rt, alloc, document, 1, &NoGate)?;
    let set = set_document(rt, alloc, document, workers, &NoGate)?;
    Ok(
        set.written.numbering.cells() == numbered
            && are_owners(set.closed.owners(), built, workers)
            && set.closed.seats() == workers + 1
            && set.written.bytes.as_slice() == one.written.bytes.as_slice(),
    )
}

/// By so many workers the expanded paragraph has its page and a file of its length.
fn is_wide<R: Threads + Sync>(
    rt: &R,
    alloc: Global,
    document: &Document,
    workers: u32,
) -> anyhow::Result<bool>
    requires fits { JobFits document.now.job }
    requires fonts { length document.now.stock ≡ length document.now.job.fonts }
    requires some { 1 ≤ workers }
    requires few { workers ≤ 64 }
{
    let set = set_document(rt, alloc, document, workers, &NoGate)?;
    let pages = set.pages.as_slice();
    Ok(
        pages.len() == 1
            && pages.iter().all(|page| is_wide_page(page))
            && set.written.bytes.len() == 240,
    )
}

#[test]
fn an_expanded_paragraph_has_one_page_by_any_number_of_workers(
    rt: HostRuntime,
) -> Result<(), Fail> {
    let alloc = rt.alloc();
    let document = read_document(alloc, EXPANDED, &tiny10(alloc)?)?;
    assert!(rt; is_wide(&rt, alloc, &document, 1)?);
    assert!(rt; is_wide(&rt, alloc, &document, 2)?);
    assert!(rt; is_wide(&rt, alloc, &document, 7)?);
    assert!(rt; is_wide(&rt, alloc, &document, 64)?);
    Ok(())
}

#[test]
fn an_expanded_paragraph_has_one_file_by_any_number_of_workers(
    rt: HostRuntime,
) -> Result<(), Fail> {
    let alloc = rt.alloc();
    let document = read_document(alloc, EXPANDED, &tiny10(alloc)?)?;
    let cells = [cell(20), cell(0)];
    assert!(rt; is_right(&rt, alloc, &document, 1, &cells, &[cell(20)])?);
    assert!(rt; is_right(&rt, alloc, &document, 2, &cells, &[cell(20)])?);
    assert!(rt; is_right(&rt, alloc, &document, 7, &cells, &[cell(20)])?);
    assert!(rt; is_right(&rt, alloc, &document, 64, &cells, &[cell(20)])?);
    Ok(())
}

#[test]
fn fonts_are_numbered_by_first_use_whoever_builds_them(rt: HostRuntime) -> Result<(), Fail> {
    let alloc = rt.alloc();
    let document = read_document(alloc, NARROW_AND_WIDE, &tiny10(alloc)?)?;
    let cells = [cell(-20), cell(20), cell(0)];
    assert!(rt; is_right(&rt, alloc, &document, 1, &cells, &[cell(-20), cell(20)])?);
    assert!(rt; is_right(&rt, alloc, &document, 2, &cells, &[cell(-20), cell(20)])?);
    assert!(rt; is_right(&rt, alloc, &document, 7, &cells, &[cell(-20), cell(20)])?);
    assert!(rt; is_right(&rt, alloc, &document, 64, &cells, &[cell(-20), cell(20)])?);
    Ok(())
}

#[test]
fn the_first_paragraph_with_a_fault_is_told(rt: HostRuntime) -> Result<(), Fail> {
    let alloc = rt.alloc();
    let document = read_document(alloc, TWO_FAULTS, &tiny10(alloc)?)?;
    let at = ParAt {
        paragraph: 2,
        fault: ParFault::MissingChar { offset: 21 },
    };
    let told = set_all(&rt, alloc, &document.job, &document.stock, 4, &NoGate).err();
    assert_eq!(rt; told, Some(SetFault::Par { at }));
    Ok(())
}
