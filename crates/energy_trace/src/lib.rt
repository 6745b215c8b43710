// The tracebacks of the least-energy fold: the structure that the three tables lead to, be they right or wrong.
#![tactic(auto)]

ghost use Rattle.std.specs.Prelude.{◌≡◌, ◌≤◌, ◌<◌, length};
ghost use Rattle.energy_trace.specs.Choosing.{moves};
ghost use Rattle.energy_trace.specs.Trace.{Spot, Traced, Traceable, traced_of};

use crate::choice::{Job, Move, choose};
use energy_reach::{Tables, Triangle};

mod choice;

// Writes the structure of the first n bases; what stands after them is left.
pub fn traceback<'a>(
    bases: &'a [u8],
    paired: &'a [i32],
    any: &'a [i32],
    arms: &'a [i32],
    n: usize,
    pairs: &mut [u16],
)
    requires { (0 < n) × (n ≤ length pairs.old) × Traceable bases.now paired.now any.now arms.now n }
    ensures { pairs.new ≡ traced_of bases.now paired.now any.now arms.now n pairs.old }
{
    tables::clear(pairs, n);
    let tables = Tables {
        bases,
        paired: Triangle { cells: paired, n },
        any: Triangle { cells: any, n },
        arms: Triangle { cells: arms, n },
    };
    trace(&tables, Job::Any, 0, n, pairs);
}

// Writes the pairs of one job. Each call is on a shorter span.
fn trace(tables: &Tables, job: Job, lo: usize, hi: usize, pairs: &mut [u16])
    requires { Spot job lo hi tables.now.paired.n × (tables.now.paired.n ≤ length pairs.old) }
    ensures { Traced (moves tables.now) job lo hi pairs.old pairs.new }
{
    match choose(tables, job, lo, hi) {
        Move::Stop => {}
        Move::Go(next, from, to) => trace(tables, next, from, to, pairs),
        Move::Close(i, j) => {
            tables::join(pairs, i, j);
            trace(tables, Job::Closed, i, j, pairs);
        }
        Move::Twice(next, from, k, to) => {
            trace(tables, next, from, k, pairs);
            trace(tables, next, k, to, pairs);
        }
    }
}
