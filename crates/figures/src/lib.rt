// What a loop costs, by its kind and sizes alone: no structure and no bases are known here.
// These are inner parts: who calls them has tested that the loop has a figure.
#![tactic(auto)]

mod kinds;
mod sided;
mod tables;

ghost use Rattle.std.specs.Prelude.{◌≡◌, length};
ghost use Rattle.figures.specs.Charge.{between, charge_of, Figured};
ghost use Rattle.figures.specs.Sides.{side_count, Sides};

// What closing a many-armed loop costs, and each of its inner pairs.
pub const CLOSING: usize = 3800;

pub const ARM: usize = 400;

// The smallest hairpin.
pub const SMALLEST_HAIRPIN: usize = 3;

// The longest side of a bulge or an internal loop.
pub const LONGEST_SIDE: usize = 29;

// How many pairs of sides there are.
pub const SIDES: usize = (LONGEST_SIDE + 1) * (LONGEST_SIDE + 1);

// The loop of a closing pair, by kind: a hairpin of that many bases, a stack, a bulge of that many,
// an internal loop with its two sides, a many-armed loop with that many inner pairs.
#[derive(Clone, Copy, Debug, PartialEq, Eq)]
pub enum Loop {
    Hairpin(usize),
    Stack,
    Bulge(usize),
    Internal(usize, usize),
    Many(usize),
}

// What a loop costs: `outer` is the number of its closing pair and `inner` that of its one inner pair,
// and `purines` of the two bases just inside a hairpin are purines.
pub fn charge(kind: Loop, outer: usize, inner: usize, purines: usize) -> i32
    requires { Figured kind outer inner purines }
    ensures { result ≡ charge_of kind outer inner purines }
{
    match kind {
        Loop::Hairpin(size) => kinds::hairpin(size, purines),
        Loop::Stack => kinds::stack(outer, inner),
        Loop::Bulge(size) => kinds::bulge(size, outer, inner),
        Loop::Internal(left, right) => kinds::internal(left, right),
        Loop::Many(arms) => kinds::many(arms),
    }
}

// The kind of a loop with one inner pair, by its sides.
#[tactic(auto, unfolding(crate::specs::Charge::between))]
pub fn between(left: usize, right: usize) -> Loop
    ensures { result ≡ between left right }
{
    match (left, right) {
        (0, 0) => Loop::Stack,
        (0, size) => Loop::Bulge(size),
        (size, 0) => Loop::Bulge(size),
        _ => Loop::Internal(left, right),
    }
}

// Writes the charges of all loops with one inner pair by their two sides.
pub fn sides(out: &mut [i32])
    requires { length out.old ≡ side_count }
    ensures { Sides out.new }
{
    let mut sizes = [0; sided::SIZES];
    sided::by_size(&mut sizes);
    for (k, charge) in out.iter_mut().enumerate() {
        let left = k % (LONGEST_SIDE + 1);
        let right = k / (LONGEST_SIDE + 1);
        *charge = sided::entry(&sizes, left, right);
    }
}

// Those charges, lent: they are made once a fold for a search that reads them at every cell, since a const table is copied at every read.
#[derive(Clone, Copy)]
pub struct SideCharges<'a> {
    pub charges: &'a [i32],
    pub ghost right: { Sides charges.now },
}
