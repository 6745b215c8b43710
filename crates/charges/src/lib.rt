// What a structure costs: its first pair that may not close a loop, the kind and the charge of each loop,
// and the energy as the sum over the loops.
// These are inner parts: who calls them has tested that the structure is sound and that each of its pairs may close a loop.
#![tactic(auto)]

ghost use Rattle.std.specs.Prelude.{◌≡◌, true, ◌<◌, ◌≤◌, length};
ghost use Rattle.bases.specs.Bases.{can_pair};
ghost use Rattle.structure.specs.Table.{view, Sound};
ghost use Rattle.charges.specs.Loops.{bars, first_barred, opening, single, kind, charge_at, energy_of, Chargeable};

use figures::{LONGEST_SIDE, Loop};

mod inner;

// Whether position i opens a pair that may not close a loop.
#[tactic(auto, using(crate::proofs::Openings::opening_true, crate::proofs::Openings::opens_is), unfolding(crate::specs::Loops::bars))]
fn bars(bases: &[u8], pairs: &[u16], i: usize) -> bool
    requires { Sound pairs.now × (length pairs.now ≤ length bases.now) × (i < length pairs.now) }
    ensures { result ≡ bars (view bases.now) (view pairs.now) i }
{
    structure::opens(i, pairs[i]) && !closing::may_close(bases, i, usize::from(pairs[i]))
}

// The first position that opens a pair that may not close a loop; the length where none does, as `first_barred` of
// specs/Loops.antt has it, by which the theorem `candidate` reads it.
#[tactic(auto, using(crate::proofs::Barred::barred_here, crate::proofs::Barred::barred_next, crate::proofs::Barred::barred_none))]
pub fn first_barred(bases: &[u8], pairs: &[u16]) -> usize
    requires { Sound pairs.now × (length pairs.now ≤ length bases.now) }
    ensures { result ≡ first_barred bases.now pairs.now }
{
    for i in 0..pairs.len() {
        if bars(bases, pairs, i) {
            return i;
        }
    }
    pairs.len()
}

// The kind of the loop of i and j with the one inner pair x and y: many-armed only where that is cheaper, or a side is too long.
#[tactic(auto, using(std::proofs::lemmas::Int::ints, figures::proofs::Charges::sides_reach), unfolding(crate::specs::Loops::single))]
fn single(bases: &[u8], i: usize, j: usize, x: usize, y: usize) -> Loop
    requires i_lt_x { (i < x) × (x < y) × (y < j) × (j < length bases.now) }
    requires j_value { (can_pair (view bases.now i) (view bases.now j) ≡ true) × (can_pair (view bases.now x) (view bases.now y) ≡ true) }
    ensures { result ≡ single (view bases.now) i j x y }
{
    let left = x - (i + 1);
    let right = j - (y + 1);
    if LONGEST_SIDE < left || LONGEST_SIDE < right {
        return Loop::Many(1);
    }
    if closing::own(bases, i, j, x, y) <= figures::charge(Loop::Many(1), 0, 0, 0) {
        return figures::between(left, right);
    }
    Loop::Many(1)
}

// A strand and a structure of it, each loop of which may be charged.
#[derive(Clone, Copy)]
pub struct Strand<'a> {
    pub bases: &'a [u8],
    pub pairs: &'a [u16],
    pub ghost chargeable: { Chargeable bases.now pairs.now },
}

impl Strand<'_> {
    // The kind of the loop that opens at i.
    #[tactic(auto, using(crate::proofs::Openings::closes), unfolding(crate::specs::Loops::kind, crate::specs::Loops::kind_by))]
    pub fn kind_at(&self, i: usize) -> Loop
        requires { (i < length self.now.pairs.now) × (opening i (view self.now.pairs.now i) ≡ true) }
        ensures { result ≡ kind (view self.now.bases.now) (view self.now.pairs.now) i }
    {
        let j = usize::from(self.pairs[i]);
        match inner::arms_in(self.pairs, i + 1, j) {
            0 => Loop::Hairpin(j - (i + 1)),
            1 => {
                let x = inner::first_in(self.pairs, i + 1, j);
                single(self.bases, i, j, x, usize::from(self.pairs[x]))
            }
            arms => Loop::Many(arms),
        }
    }

    // What the loop that opens at i costs.
    #[tactic(auto, using(crate::proofs::Openings::closes), unfolding(crate::specs::Loops::charge_at, crate::specs::Loops::charge_by))]
    pub fn charge_at(&self, i: usize) -> i32
        requires { (i < length self.now.pairs.now) × (opening i (view self.now.pairs.now i) ≡ true) }
        ensures { result ≡ charge_at (view self.now.bases.now) (view self.now.pairs.now) i }
    {
        let j = usize::from(self.pairs[i]);
        let x = inner::first_in(self.pairs, i + 1, j);
        let y = usize::from(self.pairs[x]);
        let kind = self.kind_at(i);
        let outer = bases::pair_index(self.bases[i], self.bases[j]);
        let inner = bases::pair_index(self.bases[x], self.bases[y]);
        figures::charge(
            kind,
            outer,
            inner,
            closing::purines(self.bases[i + 1], self.bases[j - 1]),
        )
    }

    // The energy of a structure.
    #[tactic(auto, using(std::proofs::lemmas::Int::ints, crate::proofs::Openings::total_small), unfolding(crate::specs::Loops::total))]
    pub fn energy_of(&self) -> i32
        ensures { result ≡ energy_of self.now.bases.now self.now.pairs.now }
    {
        let mut sum = 0;
        // Over places and not entries, so that the edit that leaves the first one out changes a number alone.
        for i in 0..self.pairs.len() {
            if structure::opens(i, self.pairs[i]) {
                sum += self.charge_at(i);
            }
        }
        sum
    }
}
