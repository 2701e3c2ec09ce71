//! A place between two items (TeX: The Program, sections 903 to 918).
ghost use Rattle.std.specs.Prelude.{◌≡◌, ◌++◌, ◌∷◌, [], false, true, IfOk, OnOk, option_to_list};
ghost use Rattle.hlist.specs.declared.item.Sub.TheVariants.{Char as sub_char};
ghost use Rattle.hlist_hyph.specs.Pieces.{hyphening, begins_with_letters, kern_before};
ghost use Rattle.hlist_hyph.specs.Pieces.{whole_before, behind_char, joint_of, joint_behind};
ghost use Rattle.hlist_hyph.specs.Pieces.{joint, begins_with_kern, takes_kern};
ghost use Rattle.hlist_hyph.specs.Pieces.{begins_with_char, run_of, code_of};

use crate::letters::{code_of, letter_count};
use crate::places::is_place;
use crate::setting::Setting;
use crate::splitting::run_of;
use font_stock::Font;
use hlist::{Item, Sub};
use items::Items;
use micro_num::{Disc, NoMemory};
use std::alloc::{AllocError, Global};

/// Whether items begin with one that covers a letter.
fn begins_with_letters(items: &[Item]) -> bool
    ensures { result ≡ begins_with_letters items.now }
{
    match items.first() {
        Some(item) => 0 < letter_count(item),
        None => false,
    }
}

/// Whether items begin with a font kern.
fn begins_with_kern(items: &[Item]) -> bool
    ensures { result ≡ begins_with_kern items.now }
{
    match items.first() {
        Some(Item::FontKern { .. }) => true,
        _ => false,
    }
}

/// A list of one entry.
fn single(alloc: Global, sub: Sub) -> Result<Items<Sub>, AllocError>
    ensures { IfOk result (λ list. list ≡ sub ∷ []) }
{
    let mut list = Items::new(alloc);
    list.push(sub)?;
    Ok(list)
}

/// A font kern, as what stands before an item that covers a letter.
fn kern_before(
    alloc: Global,
    item: &Item,
    behind: &[Item],
) -> Result<Option<Items<Sub>>, AllocError>
    ensures { IfOk result (λ whole. whole ≡ kern_before item.now behind.now) }
{
    if let Item::FontKern { width, left } = item {
        if begins_with_letters(behind) {
            let kern = Sub::FontKern {
                width: *width,
                left: *left,
            };
            return Ok(Some(single(alloc, kern)?));
        }
    }
    Ok(None)
}

/// What stands before the next item that covers a letter: nothing, or one font kern.
fn whole_before(alloc: Global, items: &[Item]) -> Result<Option<Items<Sub>>, AllocError>
    ensures { IfOk result (λ whole. whole ≡ whole_before items.now) }
{
    match items.first() {
        Some(item) => {
            if 0 < letter_count(item) {
                Ok(Some(Items::new(alloc)))
            } else {
                kern_before(alloc, item, &items[1..])
            }
        }
        None => Ok(None),
    }
}

/// Whether a list begins with the character of a code.
fn begins_with_char(code: u8, subs: &[Sub]) -> bool
    ensures { result ≡ begins_with_char code subs.now }
{
    match subs.first() {
        Some(Sub::Char { code: first, .. }) => *first == code,
        _ => false,
    }
}

/// What follows the first entry of a list where that is the character of a code, else the hyphen
/// character of a font alone.
fn behind_char(
    alloc: Global,
    code: u8,
    number: u32,
    hyphen: u8,
    subs: Items<Sub>,
) -> Result<Items<Sub>, AllocError>
    ensures { IfOk result (λ list. list
        ≡ behind_char code (sub_char number hyphen ∷ []) subs) }
{
    if begins_with_char(code, subs.as_slice()) {
        let mut list = subs.into_vec();
        list.remove(0);
        Ok(Items::from_vec(list))
    } else {
        single(
            alloc,
            Sub::Char {
                font: number,
                code: hyphen,
            },
        )
    }
}

/// The discretionary behind an item of a code, with what stands there without a break.
fn joint_of(
    alloc: Global,
    font: &Font,
    setting: &Setting,
    code: u8,
    whole: Items<Sub>,
) -> Result<Option<Item>, NoMemory>
    ensures { let w = hyphening font.now setting.now in
        IfOk result (λ made. made ≡ joint_of w code whole
        (run_of w (code ∷ setting.now.hyphen ∷ []) false true)) }
{
    match run_of(alloc, font, setting, &[code, setting.hyphen], false, true)? {
        Some(subs) => {
            let pre = behind_char(alloc, code, setting.number, setting.hyphen, subs)?;
            let lists = Disc::new(alloc, pre, Items::new(alloc), whole)?;
            Ok(Some(Item::Disc { lists }))
        }
        None => Ok(None),
    }
}

/// The discretionary behind an item, if there is one.
fn joint_behind(
    alloc: Global,
    font: &Font,
    setting: &Setting,
    item: &Item,
    behind: &[Item],
) -> Result<Option<Item>, NoMemory>
    ensures { IfOk result (λ made. made ≡ joint_behind (hyphening font.now setting.now)
        (code_of item.now) (whole_before behind.now)) }
{
    match code_of(item) {
        Some(code) => match whole_before(alloc, behind)? {
            Some(whole) => joint_of(alloc, font, setting, code, whole),
            None => Ok(None),
        },
        None => Ok(None),
    }
}

/// The discretionary that is put between an item, with which `end` letters of the word end, and
/// those behind it.
fn joint(
    alloc: Global,
    font: &Font,
    setting: &Setting,
    end: usize,
    item: &Item,
    behind: &[Item],
) -> Result<Option<Item>, NoMemory>
    ensures { IfOk result (λ made. made
        ≡ joint (hyphening font.now setting.now) end item.now behind.now) }
{
    if 0 < letter_count(item) && is_place(setting.places.as_slice(), end) {
        joint_behind(alloc, font, setting, item, behind)
    } else {
        Ok(None)
    }
}

/// Puts the discretionary behind an item into a list, if there is one, and tells whether it has
/// taken the font kern that follows.
pub fn push_joint(
    alloc: Global,
    list: &mut Items<Item>,
    font: &Font,
    setting: &Setting,
    end: usize,
    item: &Item,
    behind: &[Item],
) -> Result<bool, NoMemory>
    ensures put { OnOk result (list.new ≡ list.old ++ option_to_list
        (joint (hyphening font.now setting.now) end item.now behind.now)) }
    ensures taken { IfOk result (λ taken. taken ≡ takes_kern
        (joint (hyphening font.now setting.now) end item.now behind.now) behind.now) }
{
    match joint(alloc, font, setting, end, item, behind)? {
        Some(disc) => {
            list.push(disc)?;
            Ok(begins_with_kern(behind))
        }
        None => Ok(false),
    }
}
