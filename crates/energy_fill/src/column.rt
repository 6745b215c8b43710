// One column of the three tables, rewritten by the rule in passes over contiguous cells.
// A table and a column's number go together through `start`, `take` and `settle` alone, once for each of two tables: a struct of
// them would be made and taken apart in turn.
ghost use Rattle.std.specs.Prelude.{◌≡◌, ◌+◌, ◌≤◌, ◌<◌, length};
ghost use Rattle.structure.specs.Table.{view};
ghost use Rattle.cells.specs.Tri.{tri};
ghost use Rattle.cells.specs.Fill.{at, Fine, FineFrom, Rows};
ghost use Rattle.cells.specs.Pass.{Raised, Taken, Settled};
ghost use Rattle.ints.specs.Ints.{minℤ, add_e, Small};
ghost use Rattle.figures.specs.Figures.{longest};
ghost use Rattle.energy_rule.specs.Rule.{energies};
ghost use Rattle.energy_rule.specs.Bounds.{Ranged};
ghost use Rattle.energy_rule.specs.Memory.{nums, table, three, Room};
ghost use Rattle.energy_inner.specs.Search.{InRange, Smalls, Before};
ghost use Rattle.energy_fill.specs.Passes.{Started, closed, begun, link};

use figures::{ARM, CLOSING, SideCharges};
use ints::MARK;

// The least with i and j paired: a hairpin, one inner pair, or arms.
#[tactic(auto, using(energy_rule::proofs::Parts::may_far, figures::proofs::Charges::longest_low, cells::proofs::Places::place_below))]
fn close(bases: &[u8], sides: &SideCharges, paired: &[i32], arms: &[i32], i: usize, j: usize) -> i32
    requires { (i ≤ j) × Before bases.now paired.now j × (tri j ≤ length arms.now)
        × Fine InRange (at (nums arms.now)) j }
    ensures { result ≡ closed (view bases.now) (table paired.now) (table arms.now) j i }
{
    if !closing::may_close(bases, i, j) {
        return MARK;
    }
    let hairpin = closing::hairpin_at(bases, i, j);
    let interior = energy_inner::interior(bases, sides, paired, i, j);
    let at = cells::place(i + 1, j - 1);
    let many = ints::plus(ints::cell(arms, at), CLOSING as i32);
    ints::least(ints::least(hairpin, interior), many)
}

// Rows 0 to `from` of column j of the paired cells: they read the columns before alone.
#[tactic(auto, using(figures::proofs::Charges::longest_low, cells::proofs::Places::tri_step))]
fn close_all(
    bases: &[u8],
    sides: &SideCharges,
    paired: &mut [i32],
    arms: &[i32],
    j: usize,
    from: usize,
)
    requires { (from ≤ j) × (tri (j + 1) ≤ length paired.old) × Before bases.now paired.old j
        × (tri j ≤ length arms.now) × Fine InRange (at (nums arms.now)) j }
    ensures { Started (closed (view bases.now) (table paired.old) (table arms.now) j) (nums paired.old) (nums paired.new) j (from + 1) }
{
    let to = cells::place(0, j);
    for i in 0..from + 1 {
        paired[to + i] = close(bases, sides, paired, arms, i, j);
    }
}

// Rows 0 to `from` of column j before any split: i with j for a charge, or j unpaired, and no more than a limit,
// which is what the cell of one base holds.
#[tactic(auto, using(figures::proofs::Charges::longest_low, cells::proofs::Places::tri_step, crate::proofs::Passes::tri_wide))]
fn start(paired: &[i32], cells: &mut [i32], j: usize, from: usize, charge: i32, limit: i32)
    requires { (from ≤ j) × (j < longest + 2) × (tri (j + 1) ≤ length paired.now) × (tri (j + 1) ≤ length cells.old)
        × Small charge × Smalls (nums paired.now) (tri j) (from + 1) }
    ensures { Started (begun charge limit (table paired.now) (table cells.old) j) (nums cells.old) (nums cells.new) j (from + 1) }
{
    let to = cells::place(0, j);
    let back = to - j;
    for i in 0..j.min(from + 1) {
        let closed = ints::plus(ints::cell(paired, to + i), charge);
        let open = ints::cell(cells, back + i);
        cells[to + i] = ints::least(ints::least(limit, closed), open);
    }
    if from == j {
        ints::store(cells, to + j, limit);
    }
}

// One pass: the rows of the column at `col`, each with `v`, are taken into the column at `to`.
fn lower(cells: &mut [i32], col: usize, to: usize, rows: usize, v: i32)
    requires { (col + rows ≤ to) × (to + rows ≤ length cells.old) × Small v × Smalls (nums cells.old) col rows }
    ensures { Raised minℤ (λ x. add_e x v) (nums cells.old) (nums cells.old) (nums cells.new) col to rows }
{
    let lesser = |near: i32, far: i32| -> i32
        requires { Small far × Small v }
        ensures { result ≡ minℤ near (add_e far v) }
    { ints::least(near, ints::plus(far, v)) };
    cells::pass(cells, col, to, rows, lesser);
}

// The split after k of rows 0 to `from` of column j. In row k it leaves that base unpaired, whatever its own cell holds.
#[tactic(auto, using(figures::proofs::Charges::longest_low, cells::proofs::Places::tri_step, cells::proofs::Places::tri_below))]
fn take(cells: &mut [i32], j: usize, from: usize, k: usize)
    requires { (k < j) × (from ≤ j) × (j < longest + 2) × (tri (j + 1) ≤ length cells.old) × Fine InRange (at (nums cells.old)) (j + 1) }
    ensures { Taken minℤ link (nums cells.old) (nums cells.old) (nums cells.new) j from k }
{
    let to = cells::place(0, j);
    let v = ints::cell(cells, to + k + 1);
    lower(cells, cells::place(0, k), to, k.min(from + 1), v);
    if k <= from {
        cells[to + k] = ints::least(ints::cell(cells, to + k), v);
    }
}

// Every split of rows 0 to `from` of column j, from the last to the first: when (k + 1, j) is final, it is taken into the rows before it.
// Not one with the settling of counts: there row k is joined with its own cell, here it is not.
fn settle(cells: &mut [i32], j: usize, from: usize)
    requires { (from ≤ j) × (j < longest + 2) × (tri (j + 1) ≤ length cells.old) × Fine InRange (at (nums cells.old)) (j + 1) }
    ensures { Settled minℤ link InRange (nums cells.new) (nums cells.old) (nums cells.new) j from 0 }
{
    for k in (0..j).rev() {
        take(cells, j, from, k);
    }
}

// Rewrites column j from row `from` to row 0: the paired cells first, then the arms and any structure, each started and settled.
#[tactic(auto, using(cells::proofs::Places::tri_step, crate::proofs::Ruled::before_paired, crate::proofs::Ruled::before_arms))]
pub fn rows(
    bases: &[u8],
    sides: &SideCharges,
    paired: &mut [i32],
    any: &mut [i32],
    arms: &mut [i32],
    j: usize,
    from: usize,
)
    requires from_le_j { (from ≤ j) × Room bases.now paired.old any.old arms.old (j + 1) }
    requires fine_from { FineFrom (Ranged (view bases.now)) (at (three paired.old any.old arms.old)) (from + 1) j }
    ensures { Rows energies Ranged (view bases.now) (three paired.old any.old arms.old) (three paired.new any.new arms.new) j from 0 }
{
    close_all(bases, sides, paired, arms, j, from);
    start(paired, arms, j, from, ARM as i32, MARK);
    settle(arms, j, from);
    start(paired, any, j, from, 0, 0);
    settle(any, j, from);
}
