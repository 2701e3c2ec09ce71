//! A font's metrics: what a TFM file says, every number of it in the range that the file's checks
//! give (TFM description; TeX: The Program, part 30).

ghost use Rattle.std.specs.Prelude.{◌≡◌, ◌<◌, ◌^◌, ◌↔◌, IsTrue, length, slice_index_or, All};
ghost use Rattle.micro_num.specs.Scaling.{IsFixWord};
ghost use Rattle.tfm_read.specs.Ranges.{AreParams, IsDesignSize, IsPlaceIn, CharFits, LigsFit, no_char, exists_at};

use crate::character::CharInfo;
use crate::ligature::LigWord;
use items::Items;

/// A font's metrics as its TFM file has them. Sizes are fix_words, in units of 2^-20 of the design
/// size, from -2^24 to 2^24 - 1.
///
/// Every value keeps what the checks of a TFM file give: there is an entry for each of the 256
/// codes, that of a code which isn't there has sizes of 0 and no program, each program, jump and
/// skip leads to a ligature word, each kern number to a kern, each code of a ligature word to a
/// character or to the right boundary, and each size lies in its range.
#[derive(Drop)]
pub struct Tfm {
    /// The checksum, which a DVI file repeats.
    pub checksum: u32,
    /// The design size in sp, from 65536 (1pt) to 2^27 - 1.
    pub design: i32,
    /// The entry of each code, 256 of them.
    pub chars: Items<CharInfo>,
    /// The words of the lig/kern programs.
    pub ligs: Items<LigWord>,
    /// The kerns, fix_words, fewer than 2^15.
    pub kerns: Items<i32>,
    /// Slant, space, stretch, shrink, x-height, quad and extra space. Missing ones are 0. All but
    /// the slant, which is a plain ratio, are fix_words.
    pub params: [i32; 7],
    /// The code of the right boundary character.
    pub right: Option<u8>,
    /// The place among the ligature words at which the left boundary's program starts.
    pub left: Option<u16>,
    pub ghost every_code: { length chars ≡ 256 },
    pub ghost design_fits: { IsDesignSize design },
    pub ghost chars_fit: { All (CharFits (length ligs)) chars },
    pub ghost ligs_fit: { LigsFit chars right (length kerns) ligs },
    pub ghost kerns_fit: { All IsFixWord kerns },
    pub ghost few_kerns: { length kerns < 2 ^ 15 },
    pub ghost params_fit: { AreParams params },
    pub ghost left_fits: { IsPlaceIn (length ligs) left },
}

impl Tfm {
    /// What the font says of a code.
    pub fn char_info(&self, code: u8) -> CharInfo
        ensures { result ≡ slice_index_or self.now.chars code no_char }
    {
        self.chars.as_slice()[code as usize]
    }

    /// Whether the font has the character of a code.
    pub fn exists(&self, code: u8) -> bool
        ensures { result ≡ exists_at self.now.chars code }
    {
        self.chars.as_slice()[code as usize].exists
    }

    /// Whether the font has a ligature word. A font without kerns or ligatures has none.
    pub fn has_ligatures(&self) -> bool
        ensures { IsTrue result ↔ (0 < length self.now.ligs) }
    {
        self.ligs.len() > 0
    }
}
