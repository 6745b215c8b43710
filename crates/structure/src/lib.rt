// Structures: pair tables, and the check that one is sound. Knows nothing of folding.
// A pair table is lent numbers of 16 bits, one a position: its partner, or 65535 where it is unpaired. C lends it so,
// and so no Option stands in it.
#![tactic(auto)]

ghost use Rattle.std.specs.Prelude.{◌≡◌, cond, ◌+◌, ◌<◌, ◌≤◌, length, MatchOption};
ghost use Rattle.refusals.specs.Refusals.{structure_limit, told, refuse};
ghost use Rattle.structure.specs.Table.{view, Fold, Sound, opens};
ghost use Rattle.structure.specs.Soundness.{named, crossed_due, unsound_due, table_due};
ghost use Rattle.structure.specs.Walking.{AllNamed, FirstUnnamed, Crossed, Crossing, Shut, Escapes, Tells, hop_to};

use refusals::{Refusal, STRUCTURE_LIMIT};

// Whether the entry v of position k opens a pair.
pub fn opens(k: usize, v: u16) -> bool
    ensures { cond result 1 0 ≡ opens k v }
{
    v != 65535 && k < usize::from(v)
}

// Is the entry of k 65535, or a position other than k that names k back?
fn named_back(table: &[u16], k: usize) -> bool
    requires { k < length table.now }
    ensures { result ≡ named (view table.now) (length table.now) k }
{
    let v = usize::from(table[k]);
    v == 65535 || v < table.len() && v != k && usize::from(table[v]) == k
}

// The first position whose entry is not.
fn first_unnamed(table: &[u16]) -> Option<usize>
    ensures { MatchOption result (FirstUnnamed (view table.now) (length table.now) (length table.now))
        (λ k. (k < length table.now) × FirstUnnamed (view table.now) (length table.now) k) }
{
    (0..table.len()).find(|&i| !named_back(table, i))
}

// The place after x, whose entry is v: a pair that stays below hi is jumped over, and there is none where it doesn't.
fn hop(x: usize, v: u16, hi: usize) -> Option<usize>
    requires { x < 65536 }
    ensures { result ≡ hop_to x v hi }
{
    if v == 65535 {
        return Some(x + 1);
    }
    let partner = usize::from(v);
    if partner < x || hi <= partner {
        return None;
    }
    Some(partner + 1)
}

// A table whose entries all name back, and that is no longer than the limit.
#[derive(Clone, Copy)]
struct Named<'a> {
    table: &'a [u16],
    ghost short: { length table.now ≤ structure_limit },
    ghost named: { AllNamed (view table.now) (length table.now) },
}

impl Named<'_> {
    // Do the positions from lo up to hi pair only with each other? The pairs inside are known to fold, so the walk jumps over them.
    fn walk(&self, lo: usize, hi: usize) -> bool
        requires lo_le_hi { (lo ≤ hi) × (hi ≤ length self.now.table.now) }
        requires shut { Shut (view self.now.table.now) (length self.now.table.now) lo }
        ensures { Tells result (Fold (view self.now.table.now) lo hi) (Escapes (view self.now.table.now) lo hi) }
    {
        let mut x = lo;
        // No range goes from pair to pair: each turn says where the next one is.
        while x < hi {
            let Some(y) = hop(x, self.table[x], hi) else {
                return false;
            };
            x = y;
        }
        true
    }

    // Does the pair that opens at i, if one does, fold?
    fn level(&self, i: usize) -> bool
        requires i_in_bounds { i < length self.now.table.now }
        requires shut { Shut (view self.now.table.now) (length self.now.table.now) (i + 1) }
        ensures { Tells result (Shut (view self.now.table.now) (length self.now.table.now) i)
            (Crossing (view self.now.table.now) (length self.now.table.now)) }
    {
        let v = self.table[i];
        // A pair of neighbours has no inside. Asked of i + 1, the test is also the walk's first one, which is then made once.
        if !opens(i + 1, v) {
            return true;
        }
        self.walk(i + 1, usize::from(v))
    }

    // Is no pair crossed by another? From right to left each position is walked over by one pair only, the innermost around it.
    fn nested(&self) -> bool
        ensures { Tells result (Sound self.now.table.now) (Crossing (view self.now.table.now) (length self.now.table.now)) }
    {
        for i in (0..self.table.len()).rev() {
            if !self.level(i) {
                return false;
            }
        }
        self.walk(0, self.table.len())
    }

    // Is the pair that opens at a crossed by one that opens further right?
    fn crossed_at(&self, a: usize) -> bool
        requires a_in_bounds { a < length self.now.table.now }
        ensures { Tells result (Crossed (view self.now.table.now) (length self.now.table.now) a)
            (Crossed (view self.now.table.now) (length self.now.table.now) a → ⊥) }
    {
        let n = self.table.len();
        let end = usize::from(self.table[a]);
        if n <= end {
            return false;
        }
        for b in a + 1..end {
            let v = usize::from(self.table[b]);
            if end < v && v < n {
                return true;
            }
        }
        false
    }

    // The lowest opening position of a crossed pair, where there is one: only an unsound table pays for this search.
    fn lowest_crossed(&self) -> usize
        requires crossing { Crossing (view self.now.table.now) (length self.now.table.now) }
        ensures { crossed_due (view self.now.table.now) (length self.now.table.now) ≡ refuse 8 (Some result) }
    {
        for a in 0..self.table.len() {
            if self.crossed_at(a) {
                return a;
            }
        }
        unreachable!()
    }
}

// 8 where the table is unsound, with the place.
pub fn unsound(table: &[u16]) -> Result<(), Refusal>
    requires { length table.now ≤ structure_limit }
    ensures { told result ≡ unsound_due table.now }
{
    if let Some(k) = first_unnamed(table) {
        return Err(Refusal::Unsound(k));
    }
    let named = Named { table };
    if named.nested() {
        return Ok(());
    }
    Err(Refusal::Unsound(named.lowest_crossed()))
}

// 3 where the table is too long, or 8.
pub fn verify(table: &[u16]) -> Result<(), Refusal>
    ensures { told result ≡ table_due table.now }
{
    if STRUCTURE_LIMIT < table.len() {
        return Err(Refusal::TooLong);
    }
    unsound(table)
}
