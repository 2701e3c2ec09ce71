//! How far the expandable fonts of a list may be expanded (pdfTeX manual, `\\pdffontexpand`).
ghost use Rattle.std.specs.Prelude.{◌≡◌, ◌<◌, All, length};
ghost use Rattle.std.specs.Option.{option_or};
ghost use Rattle.break_rule.specs.Fits.{shared_expansion as shared_of, expand_of};
ghost use Rattle.break_rule.specs.Sharing.{first_in, first_in_item, first_in_subs, first_in_sub, first_in_left};
ghost use Rattle.break_rule.specs.Over.{IsOver, IsItemOver, IsSubOver, IsKernOver};

use font_stock::{Expand, Stock};
use hlist::{Item, KernLeft, Sub};

/// How far the first expandable font of a list may be expanded, which all of them share.
#[tactic(auto, using(crate::proofs::SharingLaws::shared_in))]
pub fn shared_expansion(stock: &Stock, items: &[Item]) -> Option<Expand>
    requires { IsOver stock.now items.now }
    ensures { result ≡ shared_of stock.now items.now }
{
    first_expansion(stock, items)
}

/// The first expansion of any item.
#[tactic(auto, using(crate::proofs::SharingLaws::first_in_step), unfolding(crate::specs::Sharing::first_in))]
fn first_expansion(stock: &Stock, items: &[Item]) -> Option<Expand>
    requires { IsOver stock.now items.now }
    ensures { result ≡ first_in stock.now items.now }
{
    let mut found = None;
    for item in items {
        found = or_item(stock, found, item);
    }
    found
}

/// What was found, or else how far an item may be expanded, of which nothing is asked else.
fn or_item(stock: &Stock, found: Option<Expand>, item: &Item) -> Option<Expand>
    requires { IsItemOver stock.now item.now }
    ensures { result ≡ option_or found (first_in_item stock.now item.now) }
{
    match found {
        Some(expand) => Some(expand),
        None => item_expansion(stock, item),
    }
}

/// The first of two expansions where there is one, else the second.
fn first_of(first: Option<Expand>, second: Option<Expand>) -> Option<Expand>
    ensures { result ≡ option_or first second }
{
    match first {
        Some(expand) => Some(expand),
        None => second,
    }
}

/// How far the first expandable font that an item names may be expanded.
fn item_expansion(stock: &Stock, item: &Item) -> Option<Expand>
    requires { IsItemOver stock.now item.now }
    ensures { result ≡ first_in_item stock.now item.now }
{
    match item {
        Item::Char { font, .. } => font_expansion(stock, *font),
        Item::Lig { font, .. } => font_expansion(stock, *font),
        Item::FontKern { left, .. } => left_expansion(stock, *left),
        Item::Disc { lists } => {
            let pre = subs_expansion(stock, lists.pre());
            let post = subs_expansion(stock, lists.post());
            first_of(pre, first_of(post, subs_expansion(stock, lists.whole())))
        }
        _ => None,
    }
}

/// How far the first expandable font that the entries of a discretionary name may be expanded.
#[tactic(auto, using(crate::proofs::SharingLaws::first_in_subs_step), unfolding(crate::specs::Sharing::first_in_subs))]
fn subs_expansion(stock: &Stock, subs: &[Sub]) -> Option<Expand>
    requires { All (IsSubOver stock.now) subs.now }
    ensures { result ≡ first_in_subs stock.now subs.now }
{
    let mut found = None;
    for sub in subs {
        found = first_of(found, sub_expansion(stock, sub));
    }
    found
}

/// How far the font of an entry of a discretionary may be expanded.
fn sub_expansion(stock: &Stock, sub: &Sub) -> Option<Expand>
    requires { IsSubOver stock.now sub.now }
    ensures { result ≡ first_in_sub stock.now sub.now }
{
    match sub {
        Sub::Char { font, .. } => font_expansion(stock, *font),
        Sub::Lig { font, .. } => font_expansion(stock, *font),
        Sub::FontKern { left, .. } => left_expansion(stock, *left),
    }
}

/// How far the font of a kern may be expanded.
fn left_expansion(stock: &Stock, left: Option<KernLeft>) -> Option<Expand>
    requires { IsKernOver stock.now left }
    ensures { result ≡ first_in_left stock.now left }
{
    match left {
        Some(left) => font_expansion(stock, left.font),
        None => None,
    }
}

/// How far a font may be expanded.
fn font_expansion(stock: &Stock, font: u32) -> Option<Expand>
    requires { font < length stock.now }
    ensures { result ≡ expand_of stock.now font }
{
    stock.font(font).expand()
}
