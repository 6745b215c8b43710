// The search for the one inner pair of a loop:
// the stack and the two bulges of one base by their own figures, all others by runs over contiguous cells.
#![tactic(auto)]

ghost use Rattle.std.specs.Prelude.{◌≡◌, true, ℕ, suc, ◌+◌, ◌-◌, ◌≤◌, ◌<◌, length};
ghost use Rattle.structure.specs.Table.{view};
ghost use Rattle.cells.specs.Tri.{tri, place};
ghost use Rattle.cells.specs.Fill.{at, Fine};
ghost use Rattle.ints.specs.Ints.{min_from, Small};
ghost use Rattle.figures.specs.Figures.{smallest_hairpin, longest_side, longest};
ghost use Rattle.closing.specs.Closing.{may_close};
ghost use Rattle.energy_rule.specs.Rule.{inner_at, interior};
ghost use Rattle.energy_rule.specs.Memory.{nums, table};
ghost use Rattle.energy_inner.specs.Search.{InRange, Smalls, Charge, charged, near, Before};

use figures::{LONGEST_SIDE, SMALLEST_HAIRPIN, SideCharges};
use ints::MARK;

// How many lengths a side of a loop may have, from 0 on.
const LENGTHS: usize = LONGEST_SIDE + 1;

// The least of the cells `from + l` with the charges `row + l`, l from `lo` to before `hi`.
// No test for the mark: with a charge it is no less.
fn run(paired: &[i32], sides: &[i32], from: usize, row: usize, lo: usize, hi: usize) -> i32
    requires hi_in_bounds { (from + hi ≤ length paired.now) × (row + hi ≤ length sides.now) × Smalls (nums paired.now) from hi }
    requires by_index { (l : ℕ) → lo ≤ l → l < hi → Charge (nums sides.now (row + l)) }
    ensures { result ≡ min_from (charged (nums paired.now) (nums sides.now) from row) lo (hi - lo) }
{
    let mut best = MARK;
    // By index, for the charges start at another place than the cells do.
    for l in lo..hi {
        let x = ints::add(ints::cell(paired, from + l), ints::cell(sides, row + l));
        best = ints::least(best, x);
    }
    best
}

// The least of the inner pairs with two bases or more beside them:
// one run for each right side, whose cells and charges both lie side by side.
#[tactic(auto, using(figures::proofs::Charges::longest_low, crate::proofs::Searching::near_none))]
fn near(paired: &[i32], sides: &SideCharges, i: usize, j: usize) -> i32
    requires { (i + smallest_hairpin < j) × (j < longest + 2) × (tri j ≤ length paired.now)
        × Fine InRange (at (nums paired.now)) j }
    ensures { result ≡ near (nums paired.now) (nums sides.now.charges.now) i j }
{
    let low = i + 2 + SMALLEST_HAIRPIN;
    let count = LENGTHS.min(j.saturating_sub(low));
    let mut best = MARK;
    // Carried from column to column: it is faster than `place` at each.
    let mut col = cells::place(i + 1, j - 1);
    for r in 0..count {
        let q = j - 1 - r;
        let lo = 2usize.saturating_sub(r);
        let hi = LENGTHS.min(q + 1 - low);
        let x = run(paired, sides.charges, col, LENGTHS * r, lo, hi);
        best = ints::least(best, x);
        col -= q;
    }
    best
}

// What i with j around the one inner pair x with y costs: none where x and y may not close a loop.
// Inlined, since a fold asks it three times at every cell.
#[inline(always)]
pub fn inner_at(bases: &[u8], paired: &[i32], i: usize, j: usize, x: usize, y: usize) -> i32
    requires inside { (i < x) × (x ≤ y) × (y < j) × (x - suc i ≤ longest_side) × (j - suc y ≤ longest_side) }
    requires closes { (j < length bases.now) × (may_close (view bases.now) i j ≡ true) }
    requires readable { (y < 65536) × (place x y < length paired.now) × Small (table paired.now x y) }
    ensures { result ≡ inner_at (view bases.now) (table paired.now) i j x y }
{
    if closing::may_close(bases, x, y) {
        ints::plus(
            ints::cell(paired, cells::place(x, y)),
            closing::own(bases, i, j, x, y),
        )
    } else {
        MARK
    }
}

// The least with one inner pair.
#[tactic(auto, using(energy_rule::proofs::Parts::may_far, figures::proofs::Charges::longest_low))]
pub fn interior(bases: &[u8], sides: &SideCharges, paired: &[i32], i: usize, j: usize) -> i32
    requires { Before bases.now paired.now j × (may_close (view bases.now) i j ≡ true) }
    ensures { result ≡ interior (view bases.now) (table paired.now) i j }
{
    let stack = inner_at(bases, paired, i, j, i + 1, j - 1);
    let left = inner_at(bases, paired, i, j, i + 2, j - 1);
    let right = inner_at(bases, paired, i, j, i + 1, j - 2);
    let other = near(paired, sides, i, j);
    ints::least(ints::least(other, stack), ints::least(left, right))
}
