//! The tables of a job over the 256 codes, and what plain TeX has in them.
ghost use Rattle.std.specs.Prelude.{◌≡◌, map};
ghost use Rattle.std.specs.List.{range_with_len};
ghost use Rattle.micro_num.specs.Plain.{plain_factor, plain_lower};

/// The tables of a job over the 256 codes.
#[derive(Debug, Drop)]
pub struct Tables {
    /// Space factor codes, of which 1000 is the normal one (TeX: The Program, section 1034).
    pub sfcode: [u16; 256],
    /// The lower-case letter of each letter, and 0 for what is no letter (TeX: The Program,
    /// section 230).
    pub lccode: [u8; 256],
}

impl Tables {
    ghost use Rattle.micro_num.specs.Plain.{plain_tables};

    /// What holds before a job changes them: the tables of plain TeX.
    pub fn plain() -> Tables
        ensures { result ≡ plain_tables }
    {
        Tables {
            sfcode: plain_factors(),
            lccode: plain_letters(),
        }
    }
}

fn plain_factors() -> [u16; 256]
    ensures { result ≡ map plain_factor (range_with_len 0 256) }
{
    let mut factors = [0; 256];
    for code in 0..256 {
        factors[code] = plain_factor(code as u8);
    }
    factors
}

fn plain_letters() -> [u8; 256]
    ensures { result ≡ map plain_lower (range_with_len 0 256) }
{
    let mut letters = [0; 256];
    for code in 0..256 {
        letters[code] = plain_lower(code as u8);
    }
    letters
}

fn plain_factor(code: u8) -> u16
    ensures { result ≡ plain_factor code }
{
    if b'A' <= code && code <= b'Z' {
        999
    } else {
        1000
    }
}

fn plain_lower(code: u8) -> u8
    ensures { result ≡ plain_lower code }
{
    if b'A' <= code && code <= b'Z' {
        code + 32
    } else if b'a' <= code && code <= b'z' {
        code
    } else {
        0
    }
}
