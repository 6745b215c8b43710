// Filling the cells of the pair-count fold, in a lent triangle, column after column; and the test of believable cells.
// One walk serves a fold and every edit: `columns` rewrites the rows up to `top` of the columns from `first` on.
#![tactic(auto)]

ghost use Rattle.std.specs.Prelude.{◌≡◌, ◌≤◌, ◌<◌, length};
ghost use Rattle.cells.specs.Tri.{tri};
ghost use Rattle.cells.specs.Fill.{at, FineElse, Columns};
ghost use Rattle.structure.specs.Table.{view};
ghost use Rattle.count_rule.specs.Rule.{nussinov, Half};
ghost use Rattle.count_fill.specs.Filled.{Room, Filled};
ghost use Rattle.count_fill.specs.Believable.{all_half};

mod column;

// Rewrites the columns from `first` to before `n`, each from row `top` or its last to row 0.
pub fn columns(bases: &[u8], cells: &mut [u16], first: usize, top: usize, n: usize, gap: usize)
    requires { (first ≤ n) × (n < 65535) × (n ≤ length bases.now) × (tri n ≤ length cells.old)
        × FineElse (Half (view bases.now)) (at (view cells.old)) first top n }
    ensures { Columns (nussinov gap) Half (view bases.now) (view cells.old) (view cells.new) first top n }
{
    for j in first..n {
        column::rows(bases, cells, j, cells::smaller(top, j), gap);
    }
}

// The fold: every cell of the first n bases, whatever stood there.
pub fn fill(bases: &[u8], cells: &mut [u16], n: usize, gap: usize)
    requires { Room bases.now cells.old n }
    ensures { Filled gap bases.now cells.old cells.new n }
{
    columns(bases, cells, 0, n, n, gap);
}

// Whether each cell of the first n columns is believable: what an edit asks before it trusts a table.
pub fn believable(cells: &[u16], n: usize) -> bool
    requires { (n < 65535) × (tri n ≤ length cells.now) }
    ensures { result ≡ all_half (at (view cells.now)) n }
{
    (0..n).all(|j| column::column_half(cells, j))
}
