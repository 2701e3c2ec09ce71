//! What breaking asks of lists, and that lists of paragraphs meet it: their fonts, codes and kerns
//! are those of the stock, and where fonts may be expanded, all of a list that can be expand alike
//! (pdfTeX manual, `\\pdffontexpand` and `\\pdfadjustspacing`).
//!
//! The laws stand here, above building and hyphenation on the one side and breaking on the other,
//! which know nothing of each other.
#![tactic(auto)]

ghost use Rattle.std.specs.Prelude.{◌≡◌, ℕ, Bool, List, All, Ok};
ghost use Rattle.font_stock.specs.declared.font.Font.{Font};
ghost use Rattle.micro_num.specs.declared.paragraph.Par.{Par};
ghost use Rattle.micro_num.specs.declared.params.Params.{Params};
ghost use Rattle.micro_num.specs.declared.tables.Tables.{Tables};
ghost use Rattle.hlist.specs.Bounds.{IsListOf};
ghost use Rattle.hlist.specs.declared.item.HList.{HList};
ghost use Rattle.hlist.specs.declared.item.Item.{Item};
ghost use Rattle.hlist_build.specs.Paragraph.{list_of};
ghost use Rattle.hlist_hyph.specs.Fonts.{Passes};
ghost use Rattle.break_rule.specs.Over.{IsOver, Share};

/// The fonts, codes and kerns that a list has of a stock are in the stock.
pub fn lists_of_a_stock_are_over_it()
    ensures { (stock : List Font) (list : HList) → IsListOf stock list → IsOver stock list.items }
{}

/// The list of a paragraph names fonts in which its parts stand, and the fonts of those that can be
/// expanded expand alike.
pub fn fonts_of_a_paragraph_expand_alike()
    ensures { (par : Par) (tables : Tables) (stock : List Font) (list : HList)
        → list_of par tables stock ≡ Ok list → Share par.params stock list.items }
{}

/// A list that names no other fonts than one whose fonts expand alike has such fonts too.
pub fn lists_of_the_same_fonts_expand_alike()
    ensures { (params : Params) (stock : List Font) (items made : List Item)
        → ((test : ℕ → Bool) → All (Passes test) items → All (Passes test) made)
        → Share params stock items → Share params stock made }
{}
