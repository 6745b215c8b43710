// Filling the three tables of the least-energy fold, in lent triangles, column after column.
// One walk serves a fold and every edit: `columns` rewrites the rows up to `top` of the columns from `first` on.
#![tactic(auto)]

ghost use Rattle.std.specs.Prelude.{◌≤◌};
ghost use Rattle.structure.specs.Table.{view};
ghost use Rattle.cells.specs.Fill.{at, FineElse, Columns};
ghost use Rattle.energy_rule.specs.Rule.{energies};
ghost use Rattle.energy_rule.specs.Bounds.{Ranged};
ghost use Rattle.energy_rule.specs.Memory.{three, Room};
ghost use Rattle.energy_fill.specs.Filled.{Filled};

use figures::SideCharges;

mod column;

// Rewrites the columns from `first` to before `n`, each from row `top` or its last to row 0.
// Not one with the filling of counts: three tables are written together here.
// The tables stand apart: of a struct whose fields are `&mut`, the borrow checker has no rule for a call that lends two at once.
pub fn columns(
    bases: &[u8],
    sides: &SideCharges,
    paired: &mut [i32],
    any: &mut [i32],
    arms: &mut [i32],
    first: usize,
    top: usize,
    n: usize,
)
    requires first_le_n { (first ≤ n) × Room bases.now paired.old any.old arms.old n }
    requires fine_else { FineElse (Ranged (view bases.now)) (at (three paired.old any.old arms.old)) first top n }
    ensures { Columns energies Ranged (view bases.now) (three paired.old any.old arms.old)
        (three paired.new any.new arms.new) first top n }
{
    for j in first..n {
        column::rows(bases, sides, paired, any, arms, j, top.min(j));
    }
}

// The fold: every cell of the first n bases, whatever stood there.
pub fn fill(
    bases: &[u8],
    sides: &SideCharges,
    paired: &mut [i32],
    any: &mut [i32],
    arms: &mut [i32],
    n: usize,
)
    requires { Room bases.now paired.old any.old arms.old n }
    ensures { Filled bases.now paired.old any.old arms.old paired.new any.new arms.new n }
{
    columns(bases, sides, paired, any, arms, 0, n, n);
}
