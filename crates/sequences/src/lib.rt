// Sequences to fold: whether every byte is a base, and the letters that are kept of them.
#![tactic(auto)]

ghost use Rattle.std.specs.Prelude.{◌≡◌, map, ◌++◌, ◌≤◌, length, drop};
ghost use Rattle.bases.specs.Bases.{normal};
ghost use Rattle.refusals.specs.Refusals.{told};
ghost use Rattle.sequences.specs.Sequences.{bases_due};

use refusals::Refusal;

// Refusal 2 at the first byte that is no base.
pub fn first_no_base(sequence: &[u8]) -> Result<(), Refusal>
    ensures { told result ≡ bases_due sequence.now }
{
    match sequence
        .iter()
        .position(|&byte| bases::read_base(byte).is_none())
    {
        Some(k) => Err(Refusal::NoBase(k)),
        None => Ok(()),
    }
}

// The letter that is kept of a byte; 0 where it is no base, as `normal` has it: the call answers every byte.
pub fn letter_of(byte: u8) -> u8
    ensures { result ≡ normal byte }
{
    bases::read_base(byte).map_or(0, bases::letter)
}

// Writes the letters of a sequence to the front of lent memory.
pub fn keep(sequence: &[u8], letters: &mut [u8])
    requires { length sequence.now ≤ length letters.old }
    ensures { letters.new ≡ map normal sequence.now ++ drop (length sequence.now) letters.old }
{
    // Not zipped with `letters.iter_mut()`: of what is written through an adapter of it a proof knows nothing.
    for (k, &byte) in sequence.iter().enumerate() {
        letters[k] = letter_of(byte);
    }
}
