//! Why a line whose fonts give something can be divided into steps of their expansion (pdfTeX
//! manual, `\\pdffontexpand` and `\\pdfadjustspacing`).

ghost use Rattle.std.specs.Prelude.{ℕ, List, pos, ◌<ℤ◌};
ghost use Rattle.micro_num.specs.declared.params.Params.{Params};
ghost use Rattle.font_stock.specs.declared.font.Font.{Font};
ghost use Rattle.hlist.specs.declared.item.Item.{Item};
ghost use Rattle.break_rule.specs.declared.line.From.{From};
ghost use Rattle.break_rule.specs.Fits.{shared_expansion};
ghost use Rattle.break_rule.specs.Lines.{measure_sums};
ghost use Rattle.break_rule.specs.Over.{Share};
ghost use Rattle.break_rule.specs.Steps.{HasStep};

/// Where the fonts of a line give some stretch, the expandable fonts of the list share a stretch
/// limit of at least one step, and where they give some shrink, a shrink limit of one: a font that
/// may not be expanded, or has a limit of 0, gives nothing of any code. So no number of steps by
/// which a line's stretch or shrink is divided is 0.
pub fn fonts_that_give_have_steps()
    ensures stretch { (params : Params) (stock : List Font) (items : List Item) (from : From)
        (to : ℕ) → Share params stock items → pos 0 <ℤ params.pdfadjustspacing
        → pos 0 <ℤ (measure_sums stock items from to).font_stretch
        → HasStep (shared_expansion stock items) (λ e. e.stretch) }
    ensures shrink { (params : Params) (stock : List Font) (items : List Item) (from : From)
        (to : ℕ) → Share params stock items → pos 0 <ℤ params.pdfadjustspacing
        → pos 0 <ℤ (measure_sums stock items from to).font_shrink
        → HasStep (shared_expansion stock items) (λ e. e.shrink) }
{}
