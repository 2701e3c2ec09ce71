//! Generated documents, as the readers of jobs and fonts read them.
use job_text::read_job;
use micro_words::{gen_font, gen_job};
use std::test::Fail;
use test_fonts::tiny10;

#[test]
fn a_generated_document_has_its_paragraphs(rt: HostRuntime) -> Result<(), Fail> {
    for count in [1, 7, 200] {
        let job = read_job(rt.alloc(), &gen_job(rt.alloc(), count)?)?;
        assert_eq!(rt; job.pars.len(), count as usize);
        assert_eq!(rt; job.fonts.len(), 1);
        for font in job.fonts.as_slice() {
            assert_eq!(rt; font.name.as_slice(), b"tiny10".as_slice());
        }
    }
    Ok(())
}

#[test]
fn its_font_is_the_small_one(rt: HostRuntime) -> Result<(), Fail> {
    let font = gen_font(rt.alloc())?;
    assert_eq!(rt; font.as_slice(), tiny10(rt.alloc())?.as_slice());
    Ok(())
}
