//! What a job says of the characters of a font (pdfTeX manual, `\lpcode`, `\rpcode` and `\efcode`).
ghost use Rattle.std.specs.Prelude.{All};
ghost use Rattle.font_stock.specs.Ranges.{IsHang, IsFactor};

/// What a job says of a font's characters (pdfTeX manual, `\lpcode`, `\rpcode` and `\efcode`).
#[derive(Debug, Drop)]
pub struct FontCodes {
    /// How far each character hangs into the left margin, in thousandths of the quad, from -1000 to
    /// 1000.
    pub left: [i16; 256],
    /// The same for the right margin.
    pub right: [i16; 256],
    /// Each character's share in the font's expansion, in thousandths, from 0 to 1000.
    pub ef: [u16; 256],
    /// The code of the hyphen character. A number that is no code means that there is none.
    pub hyphen: i32,
    pub ghost left_fits: { All IsHang left },
    pub ghost right_fits: { All IsHang right },
    pub ghost ef_fits: { All IsFactor ef },
}

impl FontCodes {
    ghost use Rattle.std.specs.Prelude.{◌≡◌, pos, replicate, slice_set};
    ghost use Rattle.font_stock.specs.Ranges.{IsHang, IsFactor};

    /// What holds before a job says anything: nothing hangs, each character is expanded in full,
    /// and the hyphen character is the hyphen, code 45.
    pub fn plain() -> FontCodes
        ensures left { result.left ≡ replicate 256 (pos 0) }
        ensures right { result.right ≡ replicate 256 (pos 0) }
        ensures ef { result.ef ≡ replicate 256 1000 }
        ensures hyphen { result.hyphen ≡ pos 45 }
    {
        FontCodes {
            left: [0; 256],
            right: [0; 256],
            ef: [1000; 256],
            hyphen: 45,
        }
    }

    /// A copy of the settings.
    pub fn copy(&self) -> FontCodes
        ensures { result ≡ self.now }
    {
        FontCodes {
            left: self.left,
            right: self.right,
            ef: self.ef,
            hyphen: self.hyphen,
        }
    }

    /// Lets a character hang into the left margin.
    pub fn set_left(&mut self, code: u8, hang: i16)
        requires { IsHang hang }
        ensures left { self.new.left ≡ slice_set self.old.left code hang }
        ensures right { self.new.right ≡ self.old.right }
        ensures ef { self.new.ef ≡ self.old.ef }
        ensures hyphen { self.new.hyphen ≡ self.old.hyphen }
    {
        self.left[code as usize] = hang;
    }

    /// Lets a character hang into the right margin.
    pub fn set_right(&mut self, code: u8, hang: i16)
        requires { IsHang hang }
        ensures right { self.new.right ≡ slice_set self.old.right code hang }
        ensures left { self.new.left ≡ self.old.left }
        ensures ef { self.new.ef ≡ self.old.ef }
        ensures hyphen { self.new.hyphen ≡ self.old.hyphen }
    {
        self.right[code as usize] = hang;
    }

    /// Gives a character its share in the font's expansion.
    pub fn set_ef(&mut self, code: u8, factor: u16)
        requires { IsFactor factor }
        ensures ef { self.new.ef ≡ slice_set self.old.ef code factor }
        ensures left { self.new.left ≡ self.old.left }
        ensures right { self.new.right ≡ self.old.right }
        ensures hyphen { self.new.hyphen ≡ self.old.hyphen }
    {
        self.ef[code as usize] = factor;
    }
}
