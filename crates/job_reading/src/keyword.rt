//! Keywords, such as `plus` or `scaled`: letters that stand for themselves, in either case (TeX:
//! The Program, section 407).
ghost use Rattle.std.specs.Prelude.{◌≡◌, ◌≤◌, length, IfSome};
ghost use Rattle.std.specs.Option.{option_map};
ghost use Rattle.job_reading.specs.Lexemes.{keyword};
ghost use Rattle.job_reading.specs.Rest.{left};

use crate::rest::Rest;

impl<'a> Rest<'a> {
    /// The tokens behind a keyword, if it comes first. Its letters are given in lower case.
    pub fn keyword(self, letters: &[u8]) -> Option<Rest<'a>>
        ensures value { option_map left result ≡ keyword letters.now (left self.entry) }
        ensures within { IfSome result (λ x. length (left x) ≤ length (left self.entry)) }
    {
        match letters {
            [] => Some(self),
            [letter, more @ ..] => {
                let (token, tail) = self.next()?;
                if token.lexeme.is_keyword_letter(*letter) {
                    tail.keyword(more)
                } else {
                    None
                }
            }
        }
    }
}
