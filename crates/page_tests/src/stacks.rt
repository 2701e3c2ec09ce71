//! Lines on their baselines, worked out by hand from TeX: The Program, section 679.
ghost use Rattle.std.specs.Prelude.{◌≡◌, ◌≤◌, IfOk, length, vec_len};

use dvi_write::{StackFault, stack};
use instance_core::{Packed, Page};
use items::Items;
use micro_num::{Params, Sp};
use std::alloc::{AllocError, Global};
use std::test::Fail;

/// Lines without glyphs, of these heights and depths.
fn lines(alloc: Global, sizes: &[(Sp, Sp)]) -> Result<Vec<Packed>, AllocError>
    ensures { IfOk result (λ lines. vec_len lines ≡ length sizes.now) }
{
    let mut lines = Vec::new(alloc);
    for (height, depth) in sizes {
        lines.push(Packed {
            glyphs: Items::new(alloc),
            height: *height,
            depth: *depth,
            width: 0,
        })?;
    }
    Ok(lines)
}

fn stacked(alloc: Global, sizes: &[(Sp, Sp)], params: &Params) -> Result<Page, StackFault>
    requires { length sizes.now ≤ 65537 }
{
    stack(alloc, lines(alloc, sizes)?, params)
}

fn baselines(alloc: Global, page: &Page) -> Result<Vec<Sp>, AllocError> {
    let lines = page.lines.as_slice();
    lines.iter().map(|placed| placed.baseline).collect(alloc)
}

/// The parameters of plain TeX, but that baselines are so far apart.
fn apart(distance: Sp) -> Params {
    let mut params = Params::plain();
    params.baselineskip.width = distance;
    params
}

#[test]
fn lines_as_far_apart_as_can_be(rt: HostRuntime) -> Result<(), Fail> {
    let params = apart(16383 * 65536);
    let page = stacked(rt.alloc(), &[(0, 0); 2], &params)?;
    let places = baselines(rt.alloc(), &page)?;
    assert_eq!(rt; places.as_slice(), [0, 1_073_676_288].as_slice());
    let refused = stacked(rt.alloc(), &[(0, 0); 3], &params);
    assert_eq!(rt; refused.err(), Some(StackFault::OutOfRange { line: 3 }));
    Ok(())
}

#[test]
fn the_gap_is_lineskip_below_lineskiplimit(rt: HostRuntime) -> Result<(), Fail> {
    // 12 points apart, with at least 0 points between, else 1 point.
    let params = Params::plain();
    let cases = [
        ([(327_680, 0), (327_680, 0)], 1_114_112, 1_114_112),
        ([(0, 0), (786_432, 0)], 786_432, 786_432),
        ([(0, 1), (786_432, 0)], 851_969, 851_969),
        (
            [(327_680, 100_000), (800_000, 50_000)],
            1_293_216,
            1_343_216,
        ),
    ];
    for (sizes, baseline, extent) in cases {
        let page = stacked(rt.alloc(), &sizes, &params)?;
        let places = baselines(rt.alloc(), &page)?;
        assert_eq!(rt; places.last(), Some(&baseline));
        assert_eq!(rt; page.extent, extent);
    }
    Ok(())
}
