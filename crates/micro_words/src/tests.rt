//! The command line and the generated document as the program gives them.
use crate::command::{Cmd, CommandKind};
use crate::document::gen_job;
use crate::fault::WordsFault;
use crate::font::gen_font;
use crate::reading::read_words;
use std::alloc::Global;
use std::test::Fail;

/// What the words behind the program's name are read as.
fn read(alloc: Global, words: &[&str]) -> Result<Result<Cmd, WordsFault>, Fail> {
    let mut all = vec![in alloc; String::from_str(alloc, "pdfmicro")?]?;
    for word in words {
        all.push(String::from_str(alloc, word)?)?;
    }
    Ok(read_words(alloc, all.as_slice()))
}

#[test]
fn words_that_are_no_command(rt: HostRuntime) -> Result<(), Fail> {
    let cases: &[&[&str]] = &[
        &[],
        &["set"],
        &["set", "a", "b"],
        &["breaks"],
        &["Set", "a"],
        &["gen"],
        &["gen", "0"],
        &["gen", "20001"],
        &["gen", "4294967297"],
        &["gen", "01"],
        &["gen", "01x"],
        &["gen", "+1"],
        &["gen", ""],
        &["gen", "1", "2"],
        &["--workers", "65", "gen", "1"],
        &["--workers", "0", "set", "a"],
        &["--workers", "08", "set", "a"],
        &["--workers=", "set", "a"],
        &["--workers", "1", "--workers", "1", "set", "a"],
        &["breaks", "a", "--workers", "65"],
        &["set", "a", "--workers"],
        &["set", "a", "--report", "--report"],
        &["set", "a", "--report=true"],
        &["set", "a", "--reports"],
        &["set", "a", "-r"],
        &["help"],
        &["--help"],
        &["set", "a", "-h"],
        &["--version"],
    ];
    for words in cases {
        let refused = read(rt.alloc(), words)?.err();
        assert_eq!(rt; refused, Some(WordsFault::BadWords), "in {words:?}");
    }
    Ok(())
}

#[test]
fn words_that_are_a_command(rt: HostRuntime) -> Result<(), Fail> {
    let cases: &[(&[&str], CommandKind, &[&str], u32, u32, bool)] = &[
        (&["set", "a.job"], CommandKind::Set, &["a.job"], 0, 1, false),
        (
            &["--report", "set", "a"],
            CommandKind::Set,
            &["a"],
            0,
            1,
            true,
        ),
        (
            &["set", "--", "--help"],
            CommandKind::Set,
            &["--help"],
            0,
            1,
            false,
        ),
        (
            &["breaks", "a", "--workers=64"],
            CommandKind::Breaks,
            &["a"],
            0,
            64,
            false,
        ),
        (&["gen", "1"], CommandKind::Gen, &[], 1, 1, false),
        (
            &["gen", "--workers", "7", "20000"],
            CommandKind::Gen,
            &[],
            20000,
            7,
            false,
        ),
    ];
    for (words, kind, files, number, workers, report) in cases {
        let cmd = read(rt.alloc(), words)??;
        assert_eq!(rt; cmd.command, *kind, "in {words:?}");
        assert_eq!(rt; cmd.files.len(), files.len(), "in {words:?}");
        for (name, file) in cmd.files.as_slice().iter().zip(files.iter()) {
            assert_eq!(rt; name.as_str(), *file, "in {words:?}");
        }
        assert_eq!(rt; cmd.number, *number, "in {words:?}");
        assert_eq!(rt; cmd.workers, *workers, "in {words:?}");
        assert_eq!(rt; cmd.report, *report, "in {words:?}");
    }
    Ok(())
}

#[test]
fn document_1_is_its_settings_and_58_words(rt: HostRuntime) -> Result<(), Fail> {
    let settings = b"\\font\\genrm=tiny10 \\genrm
\\pdffontexpand\\genrm 20 20 1
\\pdfadjustspacing=2 \\pdfprotrudechars=2
\\rpcode\\genrm 46=700 \\rpcode\\genrm 44=500
\\hsize=200pt \\tolerance=1000 \\emergencystretch=10pt
zrhlajoe ";
    let job = gen_job(rt.alloc(), 1)?;
    let bytes = job.as_slice();
    assert!(rt; bytes.starts_with(settings));
    assert!(rt; bytes.ends_with(b".\n\n"));
    let text = bytes.get(189..).unwrap_or(&[]);
    let spaces = text.iter().filter(|byte| **byte == b' ').count();
    let commas = text.iter().filter(|byte| **byte == b',').count();
    assert_eq!(rt; spaces, 57);
    assert_eq!(rt; commas, 8);
    Ok(())
}

#[test]
fn the_longest_document_has_six_million_bytes(rt: HostRuntime) -> Result<(), Fail> {
    // The length is another program's.
    assert_eq!(rt; gen_job(rt.alloc(), 20000)?.len(), 6_100_882);
    Ok(())
}

#[test]
fn the_font_has_115_words(rt: HostRuntime) -> Result<(), Fail> {
    let font = gen_font(rt.alloc())?;
    let words: &[(usize, [u8; 4])] = &[
        (0, [0, 115, 0, 2]),
        (4, [0, 33, 0, 126]),
        (20, [0, 0, 0, 7]),
        (28, [0, 160, 0, 0]),
        (32, [1, 16, 0, 0]),
        (404, [1, 16, 0, 0]),
        (412, [0, 8, 0, 0]),
        (420, [0, 8, 0, 0]),
        (436, [0, 4, 0, 0]),
        (452, [0, 16, 0, 0]),
        (456, [0, 0, 0, 0]),
    ];
    assert_eq!(rt; font.len(), 460);
    for (place, word) in words {
        let rest = font.as_slice().get(*place..).unwrap_or(&[]);
        assert!(rt; rest.starts_with(word), "at byte {place}");
    }
    Ok(())
}
