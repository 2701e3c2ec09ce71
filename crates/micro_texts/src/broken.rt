//! The line of a broken paragraph.
ghost use Rattle.std.specs.Prelude.{◌≡◌, ◌++◌, IfOk, OnOk, string_bytes};
ghost use Rattle.micro_texts.specs.Breaks.{breaks_line, places_text};
ghost use Rattle.paragraph_breaks.specs.Passes.{given_by};

use items::Text;
use micro_num::NoMemory;
use paragraph_breaks::Broken;
use std::alloc::{AllocError, Global};

/// Puts places behind a text, each behind a space.
fn put_places(text: &mut String, places: &[u32]) -> Result<(), AllocError>
    ensures { OnOk result (string_bytes text.new
        ≡ string_bytes text.old ++ places_text places.now) }
{
    for place in places {
        write!(text, " {place}")?;
    }
    Ok(())
}

/// The line that tells how a paragraph, of which this is the number from 1, is broken: the number
/// of the pass that is taken, the total of its demerits, and the items at which lines end, each
/// behind a space. It ends with a line feed.
#[tactic(auto, using(std::proofs::Common::append_assoc), unfolding(crate::specs::Breaks::breaks_line))]
pub fn breaks_line(alloc: Global, paragraph: u32, broken: &Broken) -> Result<Text, NoMemory>
    ensures { IfOk result (λ line. line ≡ breaks_line paragraph (given_by broken.now)) }
{
    let pass = broken.pass;
    let total = broken.total;
    let mut text = format!(in alloc; "paragraph {paragraph} pass {pass} total {total} breaks")?;
    put_places(&mut text, broken.breaks.as_slice())?;
    text.push('\n')?;
    Ok(Text::from_string(text))
}
