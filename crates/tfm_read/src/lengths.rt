//! The lengths of a file's parts, and the places at which the parts start (TFM description; TeX:
//! The Program, section 540).

/// The lengths of a TFM file's parts, in words, and the codes of its characters: the twelve
/// halfwords of its first 24 bytes (TFM description: lf, lh, bc, ec, nw, nh, nd, ni, nl, nk, ne,
/// np).
#[derive(Clone, Copy, Debug, PartialEq, Eq)]
pub struct Lengths {
    pub file: u16,
    pub header: u16,
    pub first_code: u16,
    pub last_code: u16,
    pub widths: u16,
    pub heights: u16,
    pub depths: u16,
    pub italics: u16,
    pub ligs: u16,
    pub kerns: u16,
    pub recipes: u16,
    pub params: u16,
}

/// The words at which the parts start. The recipes lie between the kerns and the parameters.
#[derive(Clone, Copy, Debug, PartialEq, Eq)]
pub struct Places {
    pub chars: usize,
    pub widths: usize,
    pub heights: usize,
    pub depths: usize,
    pub italics: usize,
    pub ligs: usize,
    pub kerns: usize,
    pub params: usize,
    /// The word after the last one.
    pub end: usize,
}

impl Lengths {
    ghost use Rattle.std.specs.Prelude.{◌≡◌, ◌+◌, ◌≤◌};
    ghost use Rattle.tfm_read.specs.Lengths.{code_count, places_of};

    /// How many codes there are from the first to the last, so many char_info words.
    pub fn code_count(&self) -> usize
        requires { self.now.first_code ≤ self.now.last_code + 1 }
        ensures { result ≡ code_count self.now }
    {
        usize::from(self.last_code) + 1 - usize::from(self.first_code)
    }

    /// Where the parts start.
    #[tactic(auto, unfolding(crate::specs::Lengths::places_of))]
    pub fn places(&self) -> Places
        requires { self.now.first_code ≤ self.now.last_code + 1 }
        ensures { result ≡ places_of self.now }
    {
        let chars = 6 + usize::from(self.header);
        let widths = chars + self.code_count();
        let heights = widths + usize::from(self.widths);
        let depths = heights + usize::from(self.heights);
        let italics = depths + usize::from(self.depths);
        let ligs = italics + usize::from(self.italics);
        let kerns = ligs + usize::from(self.ligs);
        let params = kerns + usize::from(self.kerns) + usize::from(self.recipes);
        Places {
            chars,
            widths,
            heights,
            depths,
            italics,
            ligs,
            kerns,
            params,
            end: params + usize::from(self.params),
        }
    }
}
