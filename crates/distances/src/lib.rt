// How far two structures of one length are apart: by their pairs, and by their mountains.
// The two calls differ in the measure alone, and a function that is handed it would be longer than both.
#![tactic(auto)]

ghost use Rattle.std.specs.Prelude.{◌≡◌, cond, ◌+◌, ◌-◌, ◌≤◌, eqb, length};
ghost use Rattle.refusals.specs.Refusals.{structure_limit, told};
ghost use Rattle.structure.specs.Table.{Sound, opens, closes};
ghost use Rattle.distances.specs.Distance.{both_due, base_pair_distance, mountain_distance, Measures};

use refusals::{Refusal, STRUCTURE_LIMIT};

// What stands in the way of a distance: 3 for either table, 9, 8 for the first table before the second.
#[tactic(auto, unfolding(crate::specs::Distance::both_due))]
fn both_checks(a: &[u16], b: &[u16]) -> Result<(), Refusal>
    ensures { told result ≡ both_due a.now b.now }
{
    if STRUCTURE_LIMIT < a.len() || STRUCTURE_LIMIT < b.len() {
        return Err(Refusal::TooLong);
    }
    if a.len() != b.len() {
        return Err(Refusal::Unequal);
    }
    structure::unsound(a)?;
    structure::unsound(b)
}

// 1 where position k, whose entry is v, opens a pair that the other table, whose entry is w, doesn't have.
fn lacking(k: usize, v: u16, w: u16) -> usize
    ensures { result ≡ cond (eqb w v) 0 (opens k v) }
{
    usize::from(w != v && structure::opens(k, v))
}

// How many pairs open at position k in one table, by its entry v or w there, and are not in the other.
#[tactic(auto, using(crate::proofs::Distances::lacking_le))]
fn unshared(k: usize, v: u16, w: u16) -> usize
    ensures { result ≡ cond (eqb w v) 0 (opens k v) + cond (eqb v w) 0 (opens k w) }
{
    lacking(k, v, w) + lacking(k, w, v)
}

// The base pair distance of two tables: a pair is found at its opening position alone.
#[tactic(auto, using(crate::proofs::Distances::apart_le, crate::proofs::Distances::apart_step))]
fn pairs_apart(a: &[u16], b: &[u16]) -> usize
    requires a_len { length a.now ≡ length b.now }
    requires a_len_bound { length a.now ≤ structure_limit }
    ensures { result ≡ base_pair_distance a.now b.now }
{
    let mut n = 0;
    // The place is needed beside both entries: enumerate and zip together are no plainer. So also in climb.
    for (k, &v) in a.iter().enumerate() {
        n += unshared(k, v, b[k]);
    }
    n
}

// Whether the entry v of position k closes a pair.
fn closes(k: usize, v: u16) -> bool
    ensures { cond result 1 0 ≡ closes k v }
{
    v != 65535 && usize::from(v) < k
}

// The height at position k, whose entry is v, from the height h before it: a closing place is already down.
#[tactic(auto, using(structure::proofs::Counts::opens_le))]
fn raised(h: usize, k: usize, v: u16) -> usize
    requires h_le_structure_limit { h ≤ structure_limit }
    requires v_bound { closes k v ≤ h + opens k v }
    ensures { result ≡ (h + opens k v) - closes k v }
{
    h + usize::from(structure::opens(k, v)) - usize::from(closes(k, v))
}

// The mountain distance of two sound tables. Both heights are carried along, so one walk is enough.
fn climb(a: &[u16], b: &[u16]) -> usize
    requires a_len { length a.now ≡ length b.now }
    requires a_len_bound { length a.now ≤ structure_limit }
    requires sound { Sound a.now }
    requires sound_2 { Sound b.now }
    ensures { result ≡ mountain_distance a.now b.now }
{
    let mut x = 0;
    let mut y = 0;
    let mut sum = 0;
    for (k, &v) in a.iter().enumerate() {
        x = raised(x, k, v);
        y = raised(y, k, b[k]);
        sum += x.abs_diff(y);
    }
    sum
}

// How many pairs are in one of two structures and not in the other.
#[tactic(auto, using(crate::proofs::Distances::both_clear))]
pub fn base_pair_distance(a: &[u16], b: &[u16]) -> Result<usize, Refusal>
    ensures { Measures a.now b.now (base_pair_distance a.now b.now) result }
{
    both_checks(a, b)?;
    Ok(pairs_apart(a, b))
}

// How far the mountains of two structures are apart: the differences of their heights, summed.
#[tactic(auto, using(crate::proofs::Distances::both_clear))]
pub fn mountain_distance(a: &[u16], b: &[u16]) -> Result<usize, Refusal>
    ensures { Measures a.now b.now (mountain_distance a.now b.now) result }
{
    both_checks(a, b)?;
    Ok(climb(a, b))
}
