//! What is known of a source of widths that pages were set over.
ghost use Rattle.std.specs.Prelude.{◌≡◌, List, []};
ghost use Rattle.hpack_two.specs.Answers.{touched_with};
ghost use Rattle.instance_core.specs.declared.cell.Cell.{Cell};
ghost use Rattle.instance_core.specs.declared.font.BaseFont.{BaseFont};
ghost use Rattle.instance_core.specs.declared.page.Page.{Page};
ghost use Rattle.para_workers.specs.Touched.{cells_of_all};
ghost use Rattle.renumber.specs.Uses.{used};

/// A source that was first asked for the expanded glyphs of pages has touched exactly the instances
/// that the pages use.
pub fn what_pages_touch_they_use()
    ensures { (fonts : List BaseFont) (pages : List Page) (before touched : List Cell)
        → before ≡ [] → touched ≡ touched_with fonts (cells_of_all pages) before
        → touched ≡ used fonts pages }
{}
