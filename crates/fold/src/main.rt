// The program: folds the first line of standard input, or each word of the command line, and writes what it finds.
// All that matters stands in the libraries: `counting` and `energy` fold and refuse, `lines` makes the text.
#![tactic(auto)]

ghost use Rattle.std.specs.Prelude.{◌≡◌, ◌≤◌, length, IfOk, OnErr};
ghost use Rattle.io.specs.Counts.{IsPrefixLen};
ghost use Rattle.refusals.specs.Refusals.{program_limit};

use refusals::{PROGRAM_LIMIT, Refusal};
use std::env::{Env, FillError};
use std::io;
use std::io::Read;

// The two places of a pair are more than this apart.
const GAP: usize = 3;

// Memory is fixed: what is read and written stands in arrays, and its length beside.
// The cells of 80 bases: 80 × 81 / 2.
const CELLS: usize = 3240;

// One byte more than the program folds is enough to know that a sequence is too long.
const INPUT: usize = PROGRAM_LIMIT + 1;

fn refused(rt: &impl Print, refusal: Refusal) -> io::Result<()> {
    let mut line = [0u8; lines::ROOM];
    let n = lines::refused(refusal, &mut line);
    rt.write_all(&line[..n])?;
    rt.write_all(b"\n")
}

// A line of an answer: its text and a structure's brackets.
fn answer(rt: &impl Print, text: &[u8], pairs: &[u16]) -> io::Result<()>
    requires { length pairs.now ≤ program_limit }
{
    let n = pairs.len();
    let mut structure = [0u8; PROGRAM_LIMIT];
    // A fold's table is never refused.
    let _ = brackets::to_dot_bracket(pairs, &mut structure);
    rt.write_all(text)?;
    rt.write_all(b" ")?;
    rt.write_all(&structure[..n])?;
    rt.write_all(b"\n")
}

// The normalised sequence and the most pairs, or the refusal; whether it was folded.
fn fold_pairs(rt: &impl Print, seq: &[u8]) -> io::Result<bool>
    requires { length seq.now ≤ program_limit }
{
    let n = seq.len();
    let mut bases = [0u8; PROGRAM_LIMIT];
    let mut cells = [0u16; CELLS];
    let mut pairs = [0u16; PROGRAM_LIMIT];
    match counting::nussinov(seq, GAP, &mut bases, &mut cells, &mut pairs) {
        Ok((_, count)) => {
            rt.write_all(&bases[..n])?;
            rt.write_all(b"\n")?;
            let mut line = [0u8; lines::ROOM];
            let len = lines::pairs(count, &mut line);
            answer(rt, &line[..len], &pairs[..n])?;
            Ok(true)
        }
        Err(refusal) => {
            refused(rt, refusal)?;
            Ok(false)
        }
    }
}

// The least energy. What was folded for its pairs is never refused here.
fn fold_energy(rt: &impl Print, seq: &[u8]) -> io::Result<()>
    requires { length seq.now ≤ program_limit }
{
    let n = seq.len();
    let mut bases = [0u8; PROGRAM_LIMIT];
    let mut paired = [0i32; CELLS];
    let mut any = [0i32; CELLS];
    let mut arms = [0i32; CELLS];
    let mut pairs = [0u16; PROGRAM_LIMIT];
    let minimum = energy::zuker_mfe(
        seq,
        &mut bases,
        &mut paired,
        &mut any,
        &mut arms,
        &mut pairs,
    );
    match minimum {
        Ok(z) => {
            let mut line = [0u8; lines::ROOM];
            let len = lines::energy(z, &mut line);
            answer(rt, &line[..len], &pairs[..n])
        }
        Err(refusal) => refused(rt, refusal),
    }
}

fn fold(rt: &impl Print, seq: &[u8]) -> io::Result<()> {
    if PROGRAM_LIMIT < seq.len() {
        return refused(rt, Refusal::TooLong);
    }
    if fold_pairs(rt, seq)? {
        fold_energy(rt, seq)?;
    }
    Ok(())
}

// The next byte of the first line of standard input, read by itself, so that nothing after the line is waited for.
fn next_byte(input: &mut impl Read) -> io::Result<Option<u8>> {
    let mut byte = [0u8];
    if input.read(&mut byte)? == 0 || byte[0] == b'\n' {
        return Ok(None);
    }
    Ok(Some(byte[0]))
}

// The line, as far as there is room; how many bytes it has.
// After a failed read the room is as long as it was, and what it holds is undecided.
fn read_line(input: &mut impl Read, line: &mut [u8]) -> io::Result<usize>
    ensures ok { IfOk result (λ n. IsPrefixLen n line.new) }
    ensures err { OnErr result (length line.new ≡ length line.old) }
{
    for (n, place) in line.iter_mut().enumerate() {
        let Some(byte) = next_byte(input)? else {
            return Ok(n);
        };
        *place = byte;
    }
    Ok(line.len())
}

fn fold_input(rt: &(impl Input + Print)) -> io::Result<()> {
    let mut line = [0u8; INPUT];
    let n = read_line(&mut rt.reader(), &mut line)?;
    fold(rt, &line[..n])
}

// One word of the command line, and whether there is one; one that is longer than the room is too long to fold.
fn fold_word(rt: &(impl Env + Print), i: usize) -> io::Result<bool> {
    let mut word = [0u8; INPUT];
    match rt.arg(i, &mut word) {
        Ok(n) => fold(rt, &word[..n])?,
        Err(FillError::TooLong) => refused(rt, Refusal::TooLong)?,
        Err(FillError::NotPresent) => return Ok(false),
    }
    Ok(true)
}

// Every word of the command line, and whether there is any. The program's own name is the first of its words.
fn fold_words(rt: &(impl Env + Print)) -> io::Result<bool> {
    for i in 1..usize::MAX {
        if !fold_word(rt, i)? {
            return Ok(1 < i);
        }
    }
    Ok(true)
}

fn main(rt: HostRuntime) -> io::Result<()> {
    if fold_words(&rt)? {
        return Ok(());
    }
    fold_input(&rt)
}
