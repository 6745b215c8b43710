// Searches for the first candidate that reaches the value of the cell (i, j).
#![tactic(auto)]

ghost use Rattle.std.specs.Prelude.{◌≡◌, true, suc, ◌+◌, ◌-◌, ◌≤◌, ◌<◌};
ghost use Rattle.structure.specs.Table.{view};
ghost use Rattle.figures.specs.Figures.{longest, longest_side};
ghost use Rattle.closing.specs.Closing.{may_close};
ghost use Rattle.energy_rule.specs.Rule.{lowest};
ghost use Rattle.energy_rule.specs.Memory.{table};
ghost use Rattle.energy_search.specs.Search.{splitting, inner_row, inside};

use energy_reach::{Tables, Triangle};
use figures::{LONGEST_SIDE, SMALLEST_HAIRPIN};

// How far apart the places of an inner pair are at least: a hairpin has room between them.
const NEAREST: usize = SMALLEST_HAIRPIN + 1;

// The smallest split.
pub fn splitting(cells: &Triangle, i: usize, j: usize) -> Option<usize>
    requires { (i < j) × (j < cells.now.n) }
    ensures { result ≡ splitting (table cells.now.cells.now) i j }
{
    (i + 1..j).find(|&k| cells.split(i, j, k))
}

// The inner pair with the first opening place, and of these with the first closing place.
pub fn inside(tables: &Tables, i: usize, j: usize) -> Option<(usize, usize)>
    requires { (i < j) × (j < tables.now.paired.n) × (may_close (view tables.now.bases.now) i j ≡ true) }
    ensures { result ≡ inside (view tables.now.bases.now) (table tables.now.paired.cells.now) i j }
{
    let end = i + 1 + (j - (i + 1)).min(LONGEST_SIDE + 1);
    for x in i + 1..end {
        if let Some(y) = inner_row(tables, i, j, x) {
            return Some((x, y));
        }
    }
    None
}

// The first closing place of an inner pair that opens at x.
fn inner_row(tables: &Tables, i: usize, j: usize, x: usize) -> Option<usize>
    requires i_lt_x { (i < x) × (x ≤ j) × (x - suc i ≤ longest_side) }
    requires j_value { (j < tables.now.paired.n) × (may_close (view tables.now.bases.now) i j ≡ true) }
    ensures { result ≡ inner_row (view tables.now.bases.now) (table tables.now.paired.cells.now) i j x }
{
    (lowest(j, x)..j).find(|&y| tables.inner(i, j, x, y))
}

// The first place where an inner pair that opens at x may close.
#[tactic(auto, using(figures::proofs::Charges::longest_low, energy_rule::proofs::Parts::lowest_is))]
fn lowest(j: usize, x: usize) -> usize
    requires { (x ≤ j) × (j < longest + 2) }
    ensures { result ≡ lowest j x }
{
    (x + NEAREST).max(j.saturating_sub(LONGEST_SIDE + 1))
}
