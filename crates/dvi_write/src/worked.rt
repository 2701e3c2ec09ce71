//! Files worked out by hand, as theorems: the definition gives these bytes.
ghost use Rattle.std.specs.Prelude.{◌≡◌, [], ◌∷◌};
ghost use Rattle.dvi_write.specs.Document.{dvi};
ghost use Rattle.dvi_write.specs.Worked.{three_letters, tiny10, file_of_three_letters, empty_file, moves, file_of_moves, first_of_two, second_of_two, file_of_two};

/// Three letters on one line, in 172 bytes.
pub fn three_letters_are_172_bytes()
    ensures { dvi (tiny10 ∷ []) (three_letters ∷ []) ≡ file_of_three_letters }
{}

/// A file of no page, in 72 bytes, whether a font is declared or not.
pub fn no_page_is_72_bytes()
    ensures { dvi (tiny10 ∷ []) [] ≡ empty_file }
{}

/// Moves by amounts of one, two, three and four bytes, in all four directions.
pub fn moves_take_as_few_bytes_as_they_need()
    ensures { dvi (tiny10 ∷ []) (moves ∷ []) ≡ file_of_moves }
{}

/// Three instances of a font on two pages: each is defined at its first use, and selected on each
/// page.
pub fn an_instance_is_defined_once()
    ensures { dvi (tiny10 ∷ []) (first_of_two ∷ second_of_two ∷ []) ≡ file_of_two }
{}
