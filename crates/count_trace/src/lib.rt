// The traceback of pair counting: the structure that a table of counts leads to, be the table right or wrong.
#![tactic(auto)]

ghost use Rattle.std.specs.Prelude.{◌≡◌};
ghost use Rattle.count_trace.specs.Reading.{counts, may};
ghost use Rattle.count_trace.specs.Trace.{Room, Traced, traced_of};

use crate::choice::Choice;

mod choice;

// What a traceback reads: the bases, the cells of their spans, and the gap. That they reach to a position (`Covers`) is asked at
// each call, as an index is of a slice.
#[derive(Clone, Copy)]
struct Fold<'a> {
    bases: &'a [u8],
    cells: &'a [u16],
    gap: usize,
}

// Writes the structure of the first n bases; what stands after them is left.
pub fn traceback(bases: &[u8], cells: &[u16], gap: usize, n: usize, pairs: &mut [u16])
    requires { Room bases.now cells.now pairs.old 0 n }
    ensures { pairs.new ≡ traced_of bases.now cells.now gap n pairs.old }
{
    tables::clear(pairs, n);
    let fold = Fold { bases, cells, gap };
    fold.trace(0, n, pairs);
}

impl Fold<'_> {
    // Writes the pairs of the span from lo up to, but not including, hi. Each call is on a shorter span.
    #[tactic(auto, using(crate::proofs::Choosing::split_inside, crate::proofs::Tracing::room_in))]
    fn trace(&self, lo: usize, hi: usize, pairs: &mut [u16])
        requires { Room self.now.bases.now self.now.cells.now pairs.old lo hi }
        ensures { Traced (counts self.now) (may self.now) lo hi pairs.old pairs.new }
    {
        if hi - lo < 2 {
            return;
        }
        let last = hi - 1;
        match self.choose(lo, last) {
            Choice::FirstUnpaired => self.trace(lo + 1, hi, pairs),
            Choice::Paired => {
                tables::join(pairs, lo, last);
                self.trace(lo + 1, last, pairs);
            }
            Choice::Split(k) => {
                self.trace(lo, k + 1, pairs);
                self.trace(k + 1, hi, pairs);
            }
            Choice::LastUnpaired => self.trace(lo, last, pairs),
        }
    }
}
