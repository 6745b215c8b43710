// Least energy: the public fold, over memory that the caller lends.
// The kept bases and the three tables stay with the caller, and are handed in apart, as C hands them in.
#![tactic(auto)]

ghost use Rattle.std.specs.Prelude.{◌≡◌, ◌<◌, ◌≤◌, length};
ghost use Rattle.cells.specs.Tri.{tri};
ghost use Rattle.energy.specs.Calls.{energy_at, Folds};

use figures::{SIDES, SideCharges};
use refusals::{FOLD_LIMIT, Refusal};

// The least energy in thousandths of kcal/mol that a structure of a sequence has,
// with its letters, its cells and a structure that has so little. Checks 3, 1, 2, 4.
#[tactic(auto, unfolding(crate::specs::Checks::fold_due))]
pub fn zuker_mfe(
    seq: &[u8],
    bases: &mut [u8],
    paired: &mut [i32],
    any: &mut [i32],
    arms: &mut [i32],
    pairs: &mut [u16],
) -> Result<i32, Refusal>
    ensures { Folds seq.now bases.old bases.new paired.old any.old arms.old paired.new any.new arms.new pairs.old pairs.new result }
{
    let n = seq.len();
    if FOLD_LIMIT < n {
        return Err(Refusal::TooLong);
    }
    if n == 0 {
        return Err(Refusal::Empty);
    }
    sequences::first_no_base(seq)?;
    let cells = cells::place(0, n);
    if bases.len() < n
        || paired.len() < cells
        || any.len() < cells
        || arms.len() < cells
        || pairs.len() < n
    {
        return Err(Refusal::TooShort);
    }
    sequences::keep(seq, bases);
    // Made once a fold, for the search reads it at every cell.
    let mut charges = [0; SIDES];
    figures::sides(&mut charges);
    let sides = SideCharges { charges: &charges };
    energy_fill::fill(bases, &sides, paired, any, arms, n);
    energy_trace::traceback(bases, paired, any, arms, n, pairs);
    Ok(energy(any, n))
}

// The energy of n bases: the cell of any structure of the whole span.
#[tactic(auto, using(cells::proofs::Places::place_below), unfolding(crate::specs::Calls::energy_at))]
fn energy(any: &[i32], n: usize) -> i32
    requires { (0 < n) × (n < 65536) × (tri n ≤ length any.now) }
    ensures { result ≡ energy_at any.now n }
{
    ints::cell(any, cells::place(0, n - 1))
}
