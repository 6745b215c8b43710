// Edits of a fold that counted pairs, and the traceback from its record, over the memory that the caller kept.
// Record, bases and cells are handed in apart, as C hands them in.
#![tactic(auto)]

ghost use Rattle.count_edits.specs.Calls.{with_record, Replaces, Adds, Erases, Traces};

use counting::Record;
use refusals::{FOLD_LIMIT, Refusal};

// The place that is told of an edit's byte, which is its only one.
const EDIT_PLACE: usize = 0;

// The base at a position becomes that of a byte, and the cells over it are rewritten: the record and the count after it,
// or the refusal with the record as it came. Checks 11, 4, 11, 10, 2.
pub fn replace(
    held: Record,
    bases: &mut [u8],
    cells: &mut [u16],
    position: usize,
    byte: u8,
) -> Result<(Record, usize), (Refusal, Record)>
    ensures { Replaces held bases.old bases.new cells.old cells.new position byte result }
{
    replaced(held, bases, cells, position, byte).map_err(|refusal| (refusal, held))
}

// What `replace` answers, the refusal without the record.
#[tactic(auto, using(crate::proofs::Accepted::reading), unfolding(crate::specs::Checks::replace_due))]
fn replaced(
    held: Record,
    bases: &mut [u8],
    cells: &mut [u16],
    position: usize,
    byte: u8,
) -> Result<(Record, usize), Refusal>
    ensures { Replaces held bases.old bases.new cells.old cells.new position byte (with_record held result) }
{
    let n = held.length;
    count_kept::kept_checks(n, bases, cells)?;
    if n <= position {
        return Err(Refusal::Outside);
    }
    let base = bases::read_base(byte).ok_or(Refusal::NoBase(EDIT_PLACE))?;
    bases[position] = bases::letter(base);
    count_fill::columns(bases, cells, position, position, n, held.gap);
    Ok((held, counting::count(cells, n)))
}

// The base of a byte is added at the end, and its column is written: the longer record and the count after it,
// or the refusal with the record as it came. Checks 11, 4, 11, 2, 3, 4.
pub fn add(
    held: Record,
    bases: &mut [u8],
    cells: &mut [u16],
    byte: u8,
) -> Result<(Record, usize), (Refusal, Record)>
    ensures { Adds held bases.old bases.new cells.old cells.new byte result }
{
    added(held, bases, cells, byte).map_err(|refusal| (refusal, held))
}

// What `add` answers, the refusal without the record.
#[tactic(auto, using(crate::proofs::Accepted::reading), unfolding(crate::specs::Checks::add_due))]
fn added(
    held: Record,
    bases: &mut [u8],
    cells: &mut [u16],
    byte: u8,
) -> Result<(Record, usize), Refusal>
    ensures { Adds held bases.old bases.new cells.old cells.new byte (with_record held result) }
{
    let n = held.length;
    count_kept::kept_checks(n, bases, cells)?;
    let base = bases::read_base(byte).ok_or(Refusal::NoBase(EDIT_PLACE))?;
    if FOLD_LIMIT <= n {
        return Err(Refusal::TooLong);
    }
    let longer = n + 1;
    if bases.len() < longer || cells.len() < cells::place(0, longer) {
        return Err(Refusal::TooShort);
    }
    bases[n] = bases::letter(base);
    count_fill::columns(bases, cells, n, n, longer, held.gap);
    Ok((
        Record {
            length: longer,
            ..held
        },
        counting::count(cells, longer),
    ))
}

// The last base is taken away; its byte and its cells stand, as spare memory: the shorter record and the count of what is left,
// or the refusal with the record as it came. Checks 11, 4, 11, 1.
pub fn erase(
    held: Record,
    bases: &[u8],
    cells: &[u16],
) -> Result<(Record, usize), (Refusal, Record)>
    ensures { Erases held bases.now cells.now result }
{
    erased(held, bases, cells).map_err(|refusal| (refusal, held))
}

// What `erase` answers, the refusal without the record.
#[tactic(auto, unfolding(crate::specs::Checks::erase_due))]
fn erased(held: Record, bases: &[u8], cells: &[u16]) -> Result<(Record, usize), Refusal>
    ensures { Erases held bases.now cells.now (with_record held result) }
{
    let n = held.length;
    count_kept::kept_checks(n, bases, cells)?;
    if n == 1 {
        return Err(Refusal::Empty);
    }
    let shorter = n - 1;
    Ok((
        Record {
            length: shorter,
            ..held
        },
        counting::count(cells, shorter),
    ))
}

// The structure that the kept bases and cells lead to, and the count: the cell of the whole span. Checks 11, 4, 11, 4.
#[tactic(auto, unfolding(crate::specs::Checks::trace_due))]
pub fn traceback(
    held: Record,
    bases: &[u8],
    cells: &[u16],
    pairs: &mut [u16],
) -> Result<usize, Refusal>
    ensures { Traces held bases.now cells.now pairs.old pairs.new result }
{
    let n = held.length;
    count_kept::kept_checks(n, bases, cells)?;
    if pairs.len() < n {
        Err(Refusal::TooShort)
    } else {
        count_trace::traceback(bases, cells, held.gap, n, pairs);
        Ok(counting::count(cells, n))
    }
}
