// Lists of lines, each with the line feed that ends it, whose fields have single spaces between.
#![tactic(auto)]

ghost use Rattle.std.specs.Prelude.{◌≡◌, ◌≤◌, ◌<◌, ◌++◌, length, take, MatchOption, IfOk, OnErr};
ghost use Rattle.std.specs.Iterator.{at_most};
ghost use Rattle.std.specs.Io.KnownBytes.{Consumes, IsAtEnd};

use std::io;
use std::io::Read;

// Reads until the room for the list is full or the input ends; how many bytes the list has.
// After a failed read the room is as long as it was, and what it holds is undecided. Memory is fixed, so the list is lent.
pub fn read_full<R: Read>(input: &mut R, list: &mut [u8]) -> io::Result<usize>
    ensures bound { IfOk result (λ n. n ≤ length list.new) }
    ensures bytes { IfOk result (λ n. Consumes (R.remaining input.old) (R.remaining input.new) (take n list.new)) }
    ensures end { IfOk result (λ n. n < length list.new → IsAtEnd (R.remaining input.new)) }
    ensures err { OnErr result (length list.new ≡ length list.old) }
{
    let mut done = 0;
    // No `for`: how many bytes a read gives is known only after it.
    while done < list.len() {
        let n = input.read(&mut list[done..])?;
        if n == 0 {
            return Ok(done);
        }
        done += n;
    }
    Ok(done)
}

// Where the line that starts at `from` ends: past its line feed, or where the list ends.
pub fn end_of_line(list: &[u8], from: usize) -> usize
    requires { from < length list.now }
    ensures { (from < result) × (result ≤ length list.now) }
{
    match list[from..].iter().position(|b| *b == b'\n') {
        Some(k) => from + k + 1,
        None => list.len(),
    }
}

// The lines of a list in turn. The line that is given and then what is left make up the list.
// std's `split_inclusive` cuts alike; this one goes by `end_of_line`, whose contract and edits docs/PROMISES.md names.
#[derive(Drop)]
pub struct Lines<'a>(pub &'a [u8]);

impl<'a> Iterator for Lines<'a> {
    type Item = &'a [u8];

    ghost next_gives = { λ s r t. MatchOption r (length s.0.now ≡ 0) (λ line. (s.0.now ≡ line.now ++ t.0.now) × (0 < length line.now)) };

    ghost remaining = { λ s. at_most (length s.0.now) };

    fn next(&mut self) -> Option<&'a [u8]> {
        let rest = self.0;
        if rest.is_empty() {
            return None;
        }
        let (line, after) = rest.split_at(end_of_line(rest, 0));
        self.0 = after;
        Some(line)
    }
}

fn is_space(byte: &u8) -> bool {
    *byte == b' '
}

// So many fields, none of them empty, and a line feed.
pub fn has_fields(line: &[u8], count: usize) -> bool {
    line.ends_with(b"\n")
        && count.checked_sub(1) == Some(spaces(line))
        && line.split(is_space).all(|part| end_of_field(part, 0) != 0)
}

fn spaces(line: &[u8]) -> usize {
    let mut n = 0;
    // By hand: with `filter` and `count` a line of spaces takes more than twice the steps.
    for b in line {
        n += usize::from(is_space(b));
    }
    n
}

// Field k, counted from 0; empty where there are fewer.
pub fn field(line: &[u8], k: usize) -> &[u8] {
    let from = start_of_field(line, k);
    &line[from..end_of_field(line, from)]
}

// Where field k starts: past as many spaces, or where the line ends.
fn start_of_field(line: &[u8], k: usize) -> usize
    ensures { result ≤ length line.now }
{
    let mut from = 0;
    for _ in 0..k {
        match line[from..].iter().position(is_space) {
            Some(n) => from += n + 1,
            None => return line.len(),
        }
    }
    from
}

// Where the field that starts at `from` ends: at a space, at the line feed, or where the line ends.
fn end_of_field(line: &[u8], from: usize) -> usize
    requires { from ≤ length line.now }
    ensures { (from ≤ result) × (result ≤ length line.now) }
{
    match line[from..].iter().position(|b| is_space(b) || *b == b'\n') {
        Some(k) => from + k,
        None => line.len(),
    }
}

// An empty field is no decimal, nor is a number that 64 bits don't hold.
pub fn decimal(field: &[u8]) -> Option<usize> {
    if field.is_empty() {
        return None;
    }
    let mut value = 0usize;
    for b in field {
        let digit = char::from(*b).to_digit(10)?;
        value = value.checked_mul(10)?.checked_add(digit as usize)?;
    }
    Some(value)
}

// A number of three decimals, with a sign only where it is below 0: `-1.200` is 1200 thousandths below.
pub fn thousandths(field: &[u8]) -> Option<i64> {
    match field.strip_prefix(b"-") {
        Some(size) => three_decimals(size)?.checked_neg(),
        None => three_decimals(field),
    }
}

// One digit or more, a point and three digits, as thousandths.
fn three_decimals(field: &[u8]) -> Option<i64> {
    let (units, rest) = field.split_at(field.len().checked_sub(4)?);
    let whole = decimal(units)?;
    let part = decimal(rest.strip_prefix(b".")?)?;
    if 1_000_000_000 < whole {
        return None;
    }
    i64::try_from((1000 * whole).checked_add(part)?).ok()
}
