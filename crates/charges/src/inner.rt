// The inner pairs of a loop, by a walk along a span that folds:
// it jumps over each pair, so that all loops of a structure together take time linear in its length.
ghost use Rattle.std.specs.Prelude.{◌≡◌, cond, ◌+◌, ◌<◌, ◌≤◌, eqb, length};
ghost use Rattle.structure.specs.Table.{unpaired, view, Fold};
ghost use Rattle.charges.specs.Loops.{arms_in, first_in};

// The place after position k, whose entry is v: after its partner where it has one.
fn past(k: usize, v: u16) -> usize
    requires { k < 65535 }
    ensures { result ≡ cond (eqb v unpaired) (k + 1) (v + 1) }
{
    if v == 65535 {
        return k + 1;
    }
    usize::from(v) + 1
}

// How many pairs lie from lo up to hi and in no other pair there.
#[tactic(auto, using(crate::proofs::Openings::opens_is, crate::proofs::Openings::step, crate::proofs::Walk::arms_none))]
pub fn arms_in(pairs: &[u16], lo: usize, hi: usize) -> usize
    requires { (lo ≤ hi) × (hi ≤ length pairs.now) × Fold (view pairs.now) lo hi }
    ensures { result ≡ arms_in (view pairs.now) lo hi }
{
    let mut arms = 0;
    let mut k = lo;
    // No range goes from pair to pair: each turn says where the next one is.
    while k < hi {
        let v = pairs[k];
        arms += usize::from(structure::opens(k, v));
        k = past(k, v);
    }
    arms
}

// The first place from lo up to hi that opens a pair; hi where none does, as `first_in` of specs/Loops.antt has it, by which a
// loop's charge is defined.
#[tactic(auto, using(crate::proofs::Openings::opens_is, crate::proofs::Walk::first_here, crate::proofs::Walk::first_none))]
pub fn first_in(pairs: &[u16], lo: usize, hi: usize) -> usize
    requires { (lo ≤ hi) × (hi ≤ length pairs.now) }
    ensures value { result ≡ first_in (view pairs.now) lo hi }
    ensures within { (lo ≤ result) × (result ≤ hi) }
{
    for k in lo..hi {
        if structure::opens(k, pairs[k]) {
            return k;
        }
    }
    hi
}
