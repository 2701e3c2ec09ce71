//! The parts of a char_info word, and the tables of sizes that they point into (TFM description,
//! "char_info").

ghost use Rattle.std.specs.Prelude.{◌≡◌};
ghost use Rattle.tfm_read.specs.Characters.{indices_in};

/// What a char_info word says of a character: the indices of its sizes in their tables, and where
/// its lig/kern program starts.
#[derive(Clone, Copy, Debug, PartialEq, Eq)]
pub struct Indices {
    /// 0 where the character doesn't exist.
    pub width: u8,
    pub height: u8,
    pub depth: u8,
    pub italic: u8,
    pub program: Option<u16>,
}

/// What the four bytes of a char_info word say: width index (8 bits), height index (4), depth index
/// (4), italic index (6), tag (2), remainder (8). Tag 1 means a program; the others, which mean
/// longer characters and characters built of pieces, are stepped over.
#[tactic(auto, unfolding(crate::specs::Characters::indices_in))]
pub fn indices_in(word: [u8; 4]) -> Indices
    ensures { result ≡ indices_in word }
{
    let [width, height_and_depth, italic_and_tag, remainder] = word;
    let tag = italic_and_tag % 4;
    Indices {
        width,
        height: height_and_depth / 16,
        depth: height_and_depth % 16,
        italic: italic_and_tag / 4,
        program: if tag == 1 {
            Some(u16::from(remainder))
        } else {
            None
        },
    }
}

/// The sizes that indices stand for: a place for each index that a byte may hold.
#[derive(Drop)]
pub struct Tables {
    pub widths: [i32; 256],
    pub heights: [i32; 256],
    pub depths: [i32; 256],
}
