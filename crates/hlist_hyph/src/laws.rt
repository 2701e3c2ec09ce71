//! What holds of every hyphenated list.
ghost use Rattle.std.specs.Prelude.{◌≡◌, All, List, length};
ghost use Rattle.font_stock.specs.declared.font.Font.{Font};
ghost use Rattle.hlist.specs.Bounds.{IsListOf};
ghost use Rattle.hlist.specs.declared.item.HList.{HList};
ghost use Rattle.hlist.specs.declared.item.Item.{Item};
ghost use Rattle.hlist_hyph.specs.Hyphenated.{Places, hyphenated_items, places_in, places_by};
ghost use Rattle.hlist_hyph.specs.Words.{HasFontBelow};
ghost use Rattle.hlist_hyph.specs.Untouched.{HasNewDiscs, fixed_items};
ghost use Rattle.liang_hyph.specs.Table.{PatternTable, IsMadeOf};
ghost use Rattle.liang_hyph.specs.declared.source.Exception.{Exception};
ghost use Rattle.liang_hyph.specs.declared.source.Pattern.{Pattern};
ghost use Rattle.micro_num.specs.declared.params.Params.{Params};
ghost use Rattle.micro_num.specs.declared.tables.Tables.{Tables};

/// Where the new discretionaries are taken out of a hyphenated list, and what they have without a
/// break is put in their places, the list before is back.
pub fn only_discretionaries_are_new()
    ensures { (tables : Tables) (stock : List Font) (places : Places) (items : List Item)
        → HasNewDiscs items (hyphenated_items tables stock places items) }
{}

/// The glues, penalties, boxes and kerns of the author's stand as before, in the same order.
pub fn fixed_items_stay()
    ensures { (tables : Tables) (stock : List Font) (places : Places) (items : List Item)
        → fixed_items (hyphenated_items tables stock places items) ≡ fixed_items items }
{}

/// With a table made of patterns and exceptions the words have the places that these give.
pub fn places_are_those_of_the_patterns()
    ensures { (tables : Tables) (stock : List Font) (table : PatternTable) (params : Params)
        (patterns : List Pattern) (exceptions : List Exception) (items : List Item)
        → IsMadeOf table patterns exceptions
        → hyphenated_items tables stock (places_in table params) items
        ≡ hyphenated_items tables stock (places_by patterns exceptions params) items }
{}

/// The fonts of a list that is one of a stock are among the fonts of the stock.
pub fn listed_fonts_are_below()
    ensures { (stock : List Font) (list : HList) → IsListOf stock list
        → All (HasFontBelow (length stock)) list.items }
{}
