// One column of the triangle: rewritten by the rule in passes over contiguous cells, and tested.
ghost use Rattle.std.specs.Prelude.{◌≡◌, ◌+◌, ◌≤◌, ◌<◌, max, length};
ghost use Rattle.cells.specs.Tri.{tri};
ghost use Rattle.cells.specs.Fill.{at, Fine, FineFrom, Rows};
ghost use Rattle.cells.specs.Pass.{Raised, Settled};
ghost use Rattle.structure.specs.Table.{view};
ghost use Rattle.count_rule.specs.Rule.{best, paired, nussinov, Half};
ghost use Rattle.count_fill.specs.Passes.{AnyHalf, Before, begun, Started, Fit, both};
ghost use Rattle.count_fill.specs.Believable.{fullness, column_half};

// i with j, where they may pair.
#[tactic(auto, using(crate::proofs::Passes::pairing), unfolding(count_rule::specs::Rule::may_pair))]
fn with_pair(bases: &[u8], cells: &[u16], i: usize, j: usize, gap: usize) -> u16
    requires { (i < j) × Before bases.now cells.now j }
    ensures { result ≡ paired gap (view bases.now) (at (view cells.now)) i j }
{
    if !count_rule::may_pair(bases[i], bases[j], j - i, gap) {
        return 0;
    }
    if i + 1 < j {
        cells::cell(cells, i + 1, j - 1) + 1
    } else {
        1
    }
}

// What (i, j) begins with, before any split: j unpaired, or i with j.
#[tactic(auto, using(crate::proofs::Passes::begun_one, cells::proofs::Places::place_below))]
fn opening(bases: &[u8], cells: &[u16], i: usize, j: usize, gap: usize) -> u16
    requires { (i ≤ j) × Before bases.now cells.now j }
    ensures { result ≡ begun gap (view bases.now) (at (view cells.now)) i j }
{
    if i == j {
        return 0;
    }
    cells::cell(cells, i, j - 1).max(with_pair(bases, cells, i, j, gap))
}

// Rows 0 to `from` of column j, before any split.
// The bases, the cells and the gap go apart: the cells are written here while the rule reads them.
#[tactic(auto, using(cells::proofs::Places::place_below))]
fn start(bases: &[u8], cells: &mut [u16], j: usize, from: usize, gap: usize)
    requires { (from ≤ j) × Before bases.now cells.old j }
    ensures { Started gap (view bases.now) (view cells.old) (view cells.new) j (from + 1) }
{
    let to = cells::place(0, j);
    // To one past the last: a range with its end included is slower here.
    for i in 0..from + 1 {
        cells[to + i] = opening(bases, cells, i, j, gap);
    }
}

// One pass: the rows of the column at `col`, each plus `v`, are taken into the column at `to`.
fn raise(cells: &mut [u16], col: usize, to: usize, rows: usize, v: u16)
    requires { (col + rows ≤ to) × (to + rows ≤ length cells.old) × Fit (view cells.old) col rows v }
    ensures { Raised max (λ x. x + v) (view cells.old) (view cells.old) (view cells.new) col to rows }
{
    let larger = |near: u16, far: u16| -> u16
        requires { far + v < 65536 }
        ensures { result ≡ max near (far + v) }
    { near.max(far + v) };
    cells::pass(cells, col, to, rows, larger);
}

// Every split of rows 0 to `from` of column j, from the last to the first: when (k + 1, j) is final, it is taken into the rows before it.
#[tactic(auto, using(cells::proofs::Places::tri_step))]
fn settle(cells: &mut [u16], j: usize, from: usize)
    requires { (from ≤ j) × (j < 65535) × (tri (j + 1) ≤ length cells.old) × Fine AnyHalf (at (view cells.old)) (j + 1) }
    ensures { Settled max both AnyHalf (view cells.new) (view cells.old) (view cells.new) j from 0 }
{
    // Carried from column to column: with `place` at each the compiler makes no wide loop of the passes.
    let mut col = cells::place(0, j);
    let to = col;
    for k in (0..j).rev() {
        let v = cells[to + k + 1];
        col -= k + 1;
        raise(cells, col, to, (k + 1).min(from + 1), v);
    }
}

// Rewrites column j from row `from` to row 0.
pub fn rows(bases: &[u8], cells: &mut [u16], j: usize, from: usize, gap: usize)
    requires { (from ≤ j) × (j < 65535) × (j < length bases.now) × (tri (j + 1) ≤ length cells.old)
        × FineFrom (Half (view bases.now)) (at (view cells.old)) (from + 1) j }
    ensures { Rows (nussinov gap) Half (view bases.now) (view cells.old) (view cells.new) j from 0 }
{
    start(bases, cells, j, from, gap);
    settle(cells, j, from);
}

// How full the fullest of so many cells of the column at `to` is: one contiguous pass without a way out, which the compiler can make wide.
fn fullest(cells: &[u16], to: usize, rows: usize) -> u32
    requires { (to + rows ≤ length cells.now) × (rows < 65536) }
    ensures { result ≡ best (fullness (view cells.now) to) 0 rows }
{
    let mut most: u32 = 0;
    for (i, &v) in cells[to..to + rows].iter().enumerate() {
        most = most.max(2 * u32::from(v) + i as u32);
    }
    most
}

// Whether each cell of column j is believable.
pub fn column_half(cells: &[u16], j: usize) -> bool
    requires { (j < 65535) × (tri (j + 1) ≤ length cells.now) }
    ensures { result ≡ column_half (at (view cells.now)) j }
{
    let column = cells::place(0, j);
    fullest(cells, column, j + 1) as usize <= j + 1
}
