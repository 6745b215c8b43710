// What a traceback takes at a span: the first, in the original's order, of what reaches the cell's value.
ghost use Rattle.std.specs.Prelude.{◌≡◌, ◌+◌, ◌-◌, ◌≤◌, ◌<◌, None};
ghost use Rattle.structure.specs.Table.{view};
ghost use Rattle.energy_rule.specs.Memory.{table};
ghost use Rattle.energy_trace.specs.Choosing.{shorter, any_move, arms_move, or_arms, closed_move, moves};
ghost use Rattle.energy_trace.specs.Trace.{Spot};

use energy_reach::{Tables, Triangle};

// What a traceback is of: any structure of a span, arms of a span, or the inside of a pair.
#[derive(Clone, Copy, Debug, PartialEq, Eq)]
pub enum Job {
    Any,
    Arms,
    Closed,
}

// What it does next: nothing, one shorter span, a pair and its inside, or two shorter spans that meet.
#[derive(Clone, Copy, Debug, PartialEq, Eq)]
pub enum Move {
    Stop,
    Go(Job, usize, usize),
    Close(usize, usize),
    Twice(Job, usize, usize, usize),
}

// The move of each job; a closed job has the pair's two ends.
#[tactic(auto, unfolding(crate::specs::Choosing::move_of))]
pub fn choose(tables: &Tables, job: Job, lo: usize, hi: usize) -> Move
    requires { Spot job lo hi tables.now.paired.n }
    ensures { result ≡ moves tables.now job lo hi }
{
    match job {
        Job::Any => any_move(tables, lo, hi),
        Job::Arms => arms_move(tables, lo, hi),
        Job::Closed => closed_move(tables, lo, hi),
    }
}

// Any structure of a span.
#[tactic(auto, unfolding(crate::specs::Choosing::any_move))]
fn any_move(tables: &Tables, lo: usize, hi: usize) -> Move
    requires { (lo < hi) × (hi ≤ tables.now.paired.n) }
    ensures { result ≡ any_move (table tables.now.paired.cells.now) (table tables.now.any.cells.now) lo hi }
{
    let last = hi - 1;
    if last <= lo || tables.none(lo, last) {
        return Move::Stop;
    }
    if tables.paired.alike(lo, last, &tables.any, lo, last) {
        return Move::Close(lo, last);
    }
    shorter(Job::Any, &tables.any, lo, hi)
}

// Arms of a span.
#[tactic(auto, unfolding(crate::specs::Choosing::arms_move))]
fn arms_move(tables: &Tables, lo: usize, hi: usize) -> Move
    requires { (lo < hi) × (hi ≤ tables.now.paired.n) }
    ensures { result ≡ arms_move (table tables.now.paired.cells.now) (table tables.now.arms.cells.now) lo hi }
{
    let last = hi - 1;
    if last <= lo || !tables.arms.real(lo, last) {
        return Move::Stop;
    }
    if tables.arm(lo, last) {
        return Move::Close(lo, last);
    }
    shorter(Job::Arms, &tables.arms, lo, hi)
}

// A span whose first and last base don't pair with each other.
#[tactic(auto, unfolding(crate::specs::Choosing::shorter))]
fn shorter(job: Job, cells: &Triangle, lo: usize, hi: usize) -> Move
    requires { (lo + 1 < hi) × (hi ≤ cells.now.n) }
    ensures { result ≡ shorter job (table cells.now.cells.now) lo hi }
{
    let last = hi - 1;
    let second = lo + 1;
    let before = last - 1;
    if cells.alike(second, last, cells, lo, last) {
        return Move::Go(job, second, hi);
    }
    if cells.alike(lo, before, cells, lo, last) {
        return Move::Go(job, lo, last);
    }
    match energy_search::splitting(cells, lo, last) {
        Some(k) => Move::Twice(job, lo, k + 1, hi),
        None => Move::Stop,
    }
}

// The inside of a pair.
#[tactic(auto, using(closing::proofs::Closing::close_far), unfolding(crate::specs::Choosing::closed_move))]
fn closed_move(tables: &Tables, i: usize, j: usize) -> Move
    requires { (i < j) × (j < tables.now.paired.n) }
    ensures { result ≡ closed_move (view tables.now.bases.now) (table tables.now.paired.cells.now) (table tables.now.arms.cells.now) i j }
{
    if !closing::may_close(tables.bases, i, j)
        || !tables.paired.real(i, j)
        || tables.hairpin(i, j)
    {
        return Move::Stop;
    }
    if tables.inner(i, j, i + 1, j - 1) {
        return Move::Close(i + 1, j - 1);
    }
    match energy_search::inside(tables, i, j) {
        Some((x, y)) => Move::Close(x, y),
        None => around(tables, i, j),
    }
}

// The inside of a pair with no inner pair of its own.
fn around(tables: &Tables, i: usize, j: usize) -> Move
    requires { (i + 1 < j) × (j < tables.now.paired.n) }
    ensures { result ≡ or_arms (table tables.now.paired.cells.now) (table tables.now.arms.cells.now) i j None }
{
    if tables.many(i, j) {
        return Move::Go(Job::Arms, i + 1, j);
    }
    Move::Stop
}
