// Bracket text and pair tables: each turns into the other without loss.
#![tactic(auto)]

ghost use Rattle.brackets.specs.Calls.{Parses, Spells};

use crate::text::Text;
use refusals::{Refusal, STRUCTURE_LIMIT};

mod spelling;
mod text;

// Bracket text into a pair table. Checks 3; 5 or 6 at the first offending place; 7; 4.
// Nothing is written before all of the text is judged.
#[tactic(auto, using(crate::proofs::Scan::clean, crate::proofs::Scan::shut), unfolding(crate::specs::Text::text_due))]
pub fn from_dot_bracket(text: &[u8], pairs: &mut [u16]) -> Result<usize, Refusal>
    ensures { Parses text.now pairs.old pairs.new result }
{
    if STRUCTURE_LIMIT < text.len() {
        return Err(Refusal::TooLong);
    }
    let short = Text { bytes: text };
    short.first_offence()?;
    short.first_unmatched()?;
    if pairs.len() < text.len() {
        return Err(Refusal::TooShort);
    }
    short.fill(pairs);
    Ok(text.len())
}

// The brackets of a table: `(` where a pair opens, `)` where it closes, `.` where nothing pairs. The number of positions.
#[tactic(auto, unfolding(structure::specs::Soundness::write_due))]
pub fn to_dot_bracket(pairs: &[u16], text: &mut [u8]) -> Result<usize, Refusal>
    ensures { Spells pairs.now text.old text.new result }
{
    structure::verify(pairs)?;
    if text.len() < pairs.len() {
        return Err(Refusal::TooShort);
    }
    spelling::spell(pairs, text);
    Ok(pairs.len())
}
