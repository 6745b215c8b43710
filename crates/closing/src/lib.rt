// What a closing pair costs by its bases and places, with no inner pair or with one: all that a fold asks of the bases of a loop.
// The places are i, j, x and y, as in the definitions: a struct of them would only give the four other names.
#![tactic(auto)]

ghost use Rattle.std.specs.Prelude.{◌≡◌, true, suc, ◌-◌, ◌<◌, ◌≤◌, length};
ghost use Rattle.bases.specs.Bases.{can_pair};
ghost use Rattle.structure.specs.Table.{view};
ghost use Rattle.figures.specs.Figures.{smallest_hairpin, longest_side, longest};
ghost use Rattle.closing.specs.Closing.{may_close, own, purines, hairpin_at};

use figures::{Loop, SMALLEST_HAIRPIN};

// How many of two bases are purines.
#[tactic(auto, unfolding(crate::specs::Closing::purines))]
pub fn purines(a: u8, b: u8) -> usize
    ensures { result ≡ purines a b }
{
    usize::from(bases::is_purine(a)) + usize::from(bases::is_purine(b))
}

// Whether i and j may close a loop.
#[tactic(auto, unfolding(crate::specs::Closing::may_close))]
pub fn may_close(bases: &[u8], i: usize, j: usize) -> bool
    requires { (i ≤ j) × (j < length bases.now) }
    ensures { result ≡ may_close (view bases.now) i j }
{
    bases::can_pair(bases[i], bases[j]) && SMALLEST_HAIRPIN < j - i
}

// What the hairpin costs that i and j close.
#[tactic(auto, using(crate::proofs::Closing::purines_le), unfolding(crate::specs::Closing::hairpin_at))]
pub fn hairpin_at(bases: &[u8], i: usize, j: usize) -> i32
    requires { (j < length bases.now) × (smallest_hairpin < j - i) × (j - suc i ≤ longest) }
    ensures { result ≡ hairpin_at (view bases.now) i j }
{
    figures::charge(
        Loop::Hairpin(j - (i + 1)),
        0,
        0,
        purines(bases[i + 1], bases[j - 1]),
    )
}

// What the loop of i and j with the one inner pair x and y costs by its own kind.
#[tactic(auto, using(figures::proofs::Flanks::between_figured, bases::proofs::Laws::index_below), unfolding(crate::specs::Closing::own))]
pub fn own(bases: &[u8], i: usize, j: usize, x: usize, y: usize) -> i32
    requires i_lt_x { (i < x) × (x < y) × (y < j) × (j < length bases.now) × (x - suc i ≤ longest_side) × (j - suc y ≤ longest_side) }
    requires j_value { (can_pair (view bases.now i) (view bases.now j) ≡ true) × (can_pair (view bases.now x) (view bases.now y) ≡ true) }
    ensures { result ≡ own (view bases.now) i j x y }
{
    let outer = bases::pair_index(bases[i], bases[j]);
    let inner = bases::pair_index(bases[x], bases[y]);
    let kind = figures::between(x - (i + 1), j - (y + 1));
    figures::charge(kind, outer, inner, 0)
}
