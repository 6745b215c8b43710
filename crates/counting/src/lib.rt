// Counting pairs: the public fold, over memory that the caller lends.
// The kept bases and the cells stay with the caller, so that edits can follow.
#![tactic(auto)]

ghost use Rattle.std.specs.Prelude.{◌≡◌, ◌≤◌, ◌<◌, length};
ghost use Rattle.cells.specs.Tri.{tri};
ghost use Rattle.counting.specs.Calls.{Folds, count_of};

use refusals::{FOLD_LIMIT, Refusal};

// What a fold leaves to edits: how many bases there are, and the gap.
#[derive(Clone, Copy, Debug, PartialEq, Eq)]
pub struct Record {
    pub length: usize,
    pub gap: usize,
}

// The count of n bases: the cell of the whole span.
#[tactic(auto, using(cells::proofs::Places::place_below), unfolding(crate::specs::Calls::count_of))]
pub fn count(cells: &[u16], n: usize) -> usize
    requires { (0 < n) × (n < 65535) × (tri n ≤ length cells.now) }
    ensures { result ≡ count_of cells.now n }
{
    usize::from(cells[cells::place(0, n - 1)])
}

// The record, and the most pairs that the sequence can have, with its letters, its cells and a structure that has so many.
// Checks 3, 1, 2, 4.
#[tactic(auto, unfolding(crate::specs::Checks::fold_due))]
pub fn nussinov(
    seq: &[u8],
    gap: usize,
    bases: &mut [u8],
    cells: &mut [u16],
    pairs: &mut [u16],
) -> Result<(Record, usize), Refusal>
    ensures { Folds seq.now gap bases.old bases.new cells.old cells.new pairs.old pairs.new result }
{
    let n = seq.len();
    if FOLD_LIMIT < n {
        return Err(Refusal::TooLong);
    }
    if n == 0 {
        return Err(Refusal::Empty);
    }
    sequences::first_no_base(seq)?;
    if bases.len() < n || cells.len() < cells::place(0, n) || pairs.len() < n {
        return Err(Refusal::TooShort);
    }
    sequences::keep(seq, bases);
    count_fill::fill(bases, cells, n, gap);
    count_trace::traceback(bases, cells, gap, n, pairs);
    Ok((Record { length: n, gap }, count(cells, n)))
}
