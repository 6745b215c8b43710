// The charge of a loop with one inner pair, by its sides alone.
ghost use Rattle.std.specs.Prelude.{◌≡◌, ◌≤◌, length};
ghost use Rattle.figures.specs.Figures.{longest_side};
ghost use Rattle.figures.specs.Sides.{size_count, Sizes, side_charge};

use crate::{LONGEST_SIDE, kinds};

// One more than the largest size of an internal loop.
pub const SIZES: usize = LONGEST_SIDE + LONGEST_SIDE + 1;

// Writes the figures of internal loops by size, before the slant.
#[tactic(auto, using(crate::proofs::Charges::sides_reach))]
pub fn by_size(out: &mut [i32])
    requires { length out.old ≡ size_count }
    ensures { Sizes out.new }
{
    for (k, figure) in out[2..].iter_mut().enumerate() {
        *figure = kinds::internal_size(k + 2);
    }
}

// A bulge or a stack by its kind; an internal loop by its size and its slant.
pub fn entry(sizes: &[i32], left: usize, right: usize) -> i32
    requires { (left ≤ longest_side) × (right ≤ longest_side) × Sizes sizes.now }
    ensures { result ≡ side_charge left right }
{
    if left == 0 || right == 0 {
        return crate::charge(crate::between(left, right), 0, 0, 0);
    }
    sizes[left + right] + kinds::slanted(left, right)
}
