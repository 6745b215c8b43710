// What the traceback takes at a span: the first, in the rules' order, of what reaches the cell's value.
ghost use Rattle.std.specs.Prelude.{◌≡◌, ◌+◌, ◌≤◌, ◌<◌, length};
ghost use Rattle.cells.specs.Tri.{place};
ghost use Rattle.cells.specs.Rule.{span};
ghost use Rattle.count_trace.specs.Choosing.{closes_of, split_of, choice};
ghost use Rattle.count_trace.specs.Reading.{counts, may, Covers};

use crate::Fold;

// What is taken at the span from i to j: i unpaired, i with j, a split after k, or j unpaired.
#[derive(Clone, Copy, Debug, PartialEq, Eq)]
pub enum Choice {
    FirstUnpaired,
    Paired,
    Split(usize),
    LastUnpaired,
}

impl Fold<'_> {
    // The first of the four that reaches the value of the cell (i, j).
    #[tactic(auto, using(cells::proofs::Places::place_below), unfolding(crate::specs::Choosing::choice))]
    pub fn choose(&self, i: usize, j: usize) -> Choice
        requires { (i < j) × Covers self.now j }
        ensures { result ≡ choice (counts self.now) (may self.now) i j }
    {
        let count = self.cell(i, j);
        if self.cell(i + 1, j) == count {
            return Choice::FirstUnpaired;
        }
        if self.closes(i, j, count) {
            return Choice::Paired;
        }
        match self.split(i, j, count) {
            Some(k) => Choice::Split(k),
            None => Choice::LastUnpaired,
        }
    }

    // Whether i with j reaches the count.
    #[tactic(auto, unfolding(crate::specs::Choosing::closes_of, count_rule::specs::Rule::may_pair))]
    fn closes(&self, i: usize, j: usize, count: usize) -> bool
        requires { (i < j) × Covers self.now j }
        ensures { result ≡ closes_of (counts self.now) (may self.now) i j count }
    {
        count_rule::may_pair(self.bases[i], self.bases[j], j - i, self.gap)
            && self.within(i, j) + 1 == count
    }

    // The smallest k from i + 1 to j − 1 after which a split reaches the count.
    fn split(&self, i: usize, j: usize, count: usize) -> Option<usize>
        requires { (i < j) × Covers self.now j }
        ensures { result ≡ split_of (counts self.now) i j count }
    {
        (i + 1..j).find(|&k| self.cell(i, k) + self.cell(k + 1, j) == count)
    }

    // The count between i and j: 0 where they are neighbours.
    #[tactic(auto, using(cells::proofs::Places::place_below), unfolding(cells::specs::Rule::span))]
    fn within(&self, i: usize, j: usize) -> usize
        requires { (i < j) × Covers self.now j }
        ensures { (result ≡ span (counts self.now) (i + 1) j) × (result < 65536) }
    {
        if i + 1 < j {
            self.cell(i + 1, j - 1)
        } else {
            0
        }
    }

    // The cell (i, j).
    #[tactic(auto, using(cells::proofs::Passes::cell_at))]
    fn cell(&self, i: usize, j: usize) -> usize
        requires { (i ≤ j) × (j < 65535) × (place i j < length self.now.cells.now) }
        ensures { (result ≡ counts self.now i j) × (result < 65536) }
    {
        usize::from(cells::cell(self.cells, i, j))
    }
}
