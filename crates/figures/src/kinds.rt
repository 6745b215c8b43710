// The figures of each kind of loop, read from the tables.
ghost use Rattle.std.specs.Prelude.{◌≡◌, ℕ, suc, ◌-◌, ◌<◌, ◌≤◌, pos, length, get_or};
ghost use Rattle.ints.specs.Ints.{Small};
ghost use Rattle.figures.specs.Figures.{smallest_hairpin, tabled, longest, longest_side};
ghost use Rattle.figures.specs.Charge.{mismatch, long, internal, sized, hairpin_of, stack_at, bulge_of, slant, internal_of, many_of};

use crate::tables::{BULGE, HAIRPIN, INTERNAL, LONG, MISMATCH, SLOPE, SLOPE_MOST, STACK, TABLED};
use crate::{ARM, CLOSING, SMALLEST_HAIRPIN};

// What a size above 30 adds to the figure of 30.
#[tactic(auto, using(crate::proofs::Charges::longest_is), unfolding(crate::specs::Charge::long, crate::specs::Figures::long))]
fn long_term(size: usize) -> i32
    requires { (tabled < size) × (size ≤ longest) }
    ensures { result ≡ get_or long (size - suc tabled) (pos 0) }
{
    LONG[size - (TABLED + 1)]
}

// The figure of a size in a table that begins at the size `first`.
#[tactic(auto, using(std::proofs::lemmas::Int::ints), unfolding(crate::specs::Charge::sized))]
fn sized(table: &[i32], first: usize, size: usize) -> i32
    requires first_le_size { (first ≤ size) × (first ≤ tabled) × (size ≤ longest) × (length table.now ≡ suc tabled - first) }
    requires by_index { (k : ℕ) → Small (get_or table.now k (pos 0)) }
    ensures { result ≡ sized table.now first size }
{
    if size <= TABLED {
        return table[size - first];
    }
    table[TABLED - first] + long_term(size)
}

// By how much the bases just inside a hairpin lower its figure.
#[tactic(auto, unfolding(crate::specs::Charge::mismatch, crate::specs::Figures::mismatch))]
fn mismatched(purines: usize) -> i32
    requires { purines ≤ 2 }
    ensures { result ≡ get_or mismatch purines (pos 0) }
{
    MISMATCH[purines]
}

// The two bases count from the next size after the smallest on.
pub fn hairpin(size: usize, purines: usize) -> i32
    requires { (smallest_hairpin ≤ size) × (size ≤ longest) × (purines ≤ 2) }
    ensures { result ≡ hairpin_of size purines }
{
    let own = sized(&HAIRPIN, SMALLEST_HAIRPIN, size);
    if size == SMALLEST_HAIRPIN {
        return own;
    }
    own + mismatched(purines)
}

#[tactic(auto, unfolding(crate::specs::Charge::stack_at, crate::specs::Charge::stack, crate::specs::Figures::stack))]
pub fn stack(outer: usize, inner: usize) -> i32
    requires { (outer < 6) × (inner < 6) }
    ensures { result ≡ stack_at outer inner }
{
    STACK[outer * 6 + inner]
}

// One of size 1 leaves its two pairs stacked.
#[tactic(auto, using(crate::proofs::Charges::sides_reach))]
pub fn bulge(size: usize, outer: usize, inner: usize) -> i32
    requires { (1 ≤ size) × (size ≤ longest_side) × (outer < 6) × (inner < 6) }
    ensures { result ≡ bulge_of size outer inner }
{
    let own = sized(&BULGE, 1, size);
    if size == 1 {
        return own + stack(outer, inner);
    }
    own
}

// What the difference of the sides adds.
#[tactic(auto, using(std::proofs::lemmas::Int::ints), unfolding(crate::specs::Charge::slant))]
pub fn slanted(left: usize, right: usize) -> i32
    requires { (left ≤ longest_side) × (right ≤ longest_side) }
    ensures { result ≡ pos (slant left right) }
{
    (100 * (SLOPE * left.abs_diff(right)).min(SLOPE_MOST)) as i32
}

// The figure of an internal loop of a size, before the slant.
#[tactic(auto, unfolding(crate::specs::Charge::internal, crate::specs::Figures::internal))]
pub fn internal_size(size: usize) -> i32
    requires { (2 ≤ size) × (size ≤ longest) }
    ensures { result ≡ sized internal 2 size }
{
    sized(&INTERNAL, 2, size)
}

#[tactic(auto, using(crate::proofs::Charges::sides_reach))]
pub fn internal(left: usize, right: usize) -> i32
    requires { (1 ≤ left) × (left ≤ longest_side) × (1 ≤ right) × (right ≤ longest_side) }
    ensures { result ≡ internal_of left right }
{
    internal_size(left + right) + slanted(left, right)
}

#[tactic(auto, using(std::proofs::lemmas::Int::ints, crate::proofs::Charges::longest_low), unfolding(crate::specs::Charge::many_of))]
pub fn many(arms: usize) -> i32
    requires { arms ≤ longest }
    ensures { result ≡ many_of arms }
{
    (CLOSING + ARM * arms) as i32
}
