// What every call from a record asks first of it, and of the memory that the caller kept.
#![tactic(auto)]

ghost use Rattle.std.specs.Prelude.{◌≡◌, ◌≤◌, length};
ghost use Rattle.refusals.specs.Refusals.{told};
ghost use Rattle.count_kept.specs.Checks.{all_kept, kept_due};

use refusals::{FOLD_LIMIT, Refusal};

// Whether each of the first n bytes is a letter as it is kept.
fn all_kept(bases: &[u8], n: usize) -> bool
    requires { n ≤ length bases.now }
    ensures { result ≡ all_kept bases.now n }
{
    bases[..n].iter().all(|&byte| bases::is_kept(byte))
}

// 11 for the length, 4 for the present length, 11 for the contents: the length comes first, for all that follows reads by it.
#[tactic(auto, unfolding(crate::specs::Checks::kept_due))]
pub fn kept_checks(n: usize, bases: &[u8], cells: &[u16]) -> Result<(), Refusal>
    ensures { told result ≡ kept_due n bases.now cells.now }
{
    if n == 0 || FOLD_LIMIT < n {
        return Err(Refusal::Unbelievable);
    }
    if bases.len() < n || cells.len() < cells::place(0, n) {
        return Err(Refusal::TooShort);
    }
    if !all_kept(bases, n) || !count_fill::believable(cells, n) {
        return Err(Refusal::Unbelievable);
    }
    Ok(())
}
