// Whether a candidate reaches the value of a cell.
#![tactic(auto)]

ghost use Rattle.std.specs.Prelude.{◌≡◌, true, ℕ, suc, ◌+◌, ◌-◌, ◌≤◌, ◌<◌, pos, length};
ghost use Rattle.std.specs.Int.Signed.{lt_z};
ghost use Rattle.structure.specs.Table.{view};
ghost use Rattle.ints.specs.Ints.{mark, add_e, Small};
ghost use Rattle.figures.specs.Figures.{longest_side};
ghost use Rattle.closing.specs.Closing.{may_close, hairpin_at};
ghost use Rattle.energy_rule.specs.Rule.{closing_charge, arm_charge};
ghost use Rattle.energy_rule.specs.Memory.{table};
ghost use Rattle.energy_reach.specs.Reach.{same, split_at, reaches, Ready};

use figures::{ARM, CLOSING};
use ints::MARK;

// One table of a fold: the cells of n columns. That a column is among them is asked at each call, as an index is of a slice.
#[derive(Clone, Copy)]
pub struct Triangle<'a> {
    pub cells: &'a [i32],
    pub n: usize,
    pub ghost ready: { (j : ℕ) → j < n → Ready cells.now j },
}

impl Triangle<'_> {
    // The cell (i, j).
    #[tactic(auto, using(cells::proofs::Passes::cell_at, crate::proofs::Readiness::ready_cell))]
    fn cell(&self, i: usize, j: usize) -> i32
        requires { (i ≤ j) × (j < self.now.n) }
        ensures { (result ≡ table self.now.cells.now i j) × Small result }
    {
        cells::cell(self.cells, i, j)
    }

    // The cell (i, j) has a structure.
    pub fn real(&self, i: usize, j: usize) -> bool
        requires { (i ≤ j) × (j < self.now.n) }
        ensures { result ≡ lt_z (table self.now.cells.now i j) mark }
    {
        self.cell(i, j) < MARK
    }

    // The cell (i, j) as the cell (k, l) of a table.
    #[tactic(auto, using(crate::proofs::Equal::same_bits))]
    pub fn alike(&self, i: usize, j: usize, other: &Self, k: usize, l: usize) -> bool
        requires { (i ≤ j) × (j < self.now.n) × (k ≤ l) × (l < other.now.n) }
        ensures { result ≡ same (table self.now.cells.now i j) (table other.now.cells.now k l) }
    {
        self.cell(i, j) == other.cell(k, l)
    }

    // The split of (i, j) after k.
    pub fn split(&self, i: usize, j: usize, k: usize) -> bool
        requires { (i ≤ k) × (k < j) × (j < self.now.n) }
        ensures { result ≡ split_at (table self.now.cells.now) i j k }
    {
        ints::plus(self.cell(i, k), self.cell(k + 1, j)) == self.cell(i, j)
    }
}

// What a traceback reads: the bases, and the tables of a fold of them: with i and j paired, of any structure, and as arms.
#[derive(Clone, Copy)]
pub struct Tables<'a> {
    pub bases: &'a [u8],
    pub paired: Triangle<'a>,
    pub any: Triangle<'a>,
    pub arms: Triangle<'a>,
    pub ghost one_size: { (any.n ≡ paired.n) × (arms.n ≡ paired.n) × (paired.n ≤ length bases.now) },
}

impl Tables<'_> {
    // No structure costs nothing.
    pub fn none(&self, i: usize, j: usize) -> bool
        requires { (i ≤ j) × (j < self.now.any.n) }
        ensures { result ≡ same (table self.now.any.cells.now i j) (pos 0) }
    {
        self.any.cell(i, j) == 0
    }

    // i with j as one arm.
    pub fn arm(&self, i: usize, j: usize) -> bool
        requires { (i ≤ j) × (j < self.now.paired.n) }
        ensures { result ≡ same (add_e (table self.now.paired.cells.now i j) arm_charge) (table self.now.arms.cells.now i j) }
    {
        ints::plus(self.paired.cell(i, j), ARM as i32) == self.arms.cell(i, j)
    }

    // i with j around arms.
    pub fn many(&self, i: usize, j: usize) -> bool
        requires { (i + 1 < j) × (j < self.now.paired.n) }
        ensures { result ≡ same (add_e (table self.now.arms.cells.now (i + 1) (j - 1)) closing_charge)
            (table self.now.paired.cells.now i j) }
    {
        ints::plus(self.arms.cell(i + 1, j - 1), CLOSING as i32) == self.paired.cell(i, j)
    }

    // i with j around a hairpin.
    #[tactic(auto, using(closing::proofs::Closing::close_far, crate::proofs::Equal::same_bits))]
    pub fn hairpin(&self, i: usize, j: usize) -> bool
        requires { (j < self.now.paired.n) × (may_close (view self.now.bases.now) i j ≡ true) }
        ensures { result ≡ same (hairpin_at (view self.now.bases.now) i j) (table self.now.paired.cells.now i j) }
    {
        closing::hairpin_at(self.bases, i, j) == self.paired.cell(i, j)
    }

    // i with j around the one inner pair x with y.
    #[tactic(auto, using(crate::proofs::Equal::same_bits), unfolding(crate::specs::Reach::reaches))]
    pub fn inner(&self, i: usize, j: usize, x: usize, y: usize) -> bool
        requires inside { (i < x) × (x ≤ y) × (y < j) × (x - suc i ≤ longest_side) × (j - suc y ≤ longest_side) }
        requires closes { (j < self.now.paired.n) × (may_close (view self.now.bases.now) i j ≡ true) }
        ensures { result ≡ reaches (view self.now.bases.now) (table self.now.paired.cells.now) i j x y }
    {
        energy_inner::inner_at(self.bases, self.paired.cells, i, j, x, y) == self.paired.cell(i, j)
    }
}
