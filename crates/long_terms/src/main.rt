// The table of long loops, made again: the term of every size, in whole numbers, against what `figures` adds for it.
// 1000 × 1.75 × 0.001987 × 310.15 × ln(size / 30), where ln(size / 30) is the sum of ln((k + 1) / k) for k from 30 to before the size.
#![tactic(auto)]

ghost use Rattle.std.specs.Prelude.{◌+◌, ◌≤◌, ◌<◌};
ghost use Rattle.refusals.specs.Refusals.{fold_limit};

use figures::Loop;
use refusals::FOLD_LIMIT;
use std::io;

// A logarithm of 1, as it is kept here.
const UNIT: usize = 1_000_000_000_000;

// 1000 × 1.75 × 0.001987 × 310.15, times 10,000,000.
const FACTOR: usize = 10_784_690_875;

// A thousandth, as `scaled` has it.
const THOUSANDTH: usize = 1_000_000_000_000_000;

// The largest size that has a figure of its own.
const TABLED: usize = 30;

// ln((k + 1) / k): 2 (x + x³/3 + x⁵/5) with x = 1 / (2 k + 1), whose next part is below 10⁻¹³.
fn step(k: usize) -> usize
    requires { (30 ≤ k) × (k < fold_limit) }
    ensures { result ≤ 51000000000 }
{
    let d = 2 * k + 1;
    let x = UNIT / d;
    let cube = x / d / d;
    let fifth = cube / d / d;
    2 * (x + cube / 3 + fifth / 5)
}

// The term of a size whose logarithm is so many units, not yet rounded.
fn scaled(ln: usize) -> usize
    requires { ln ≤ 12800000000000 }
    ensures { result ≤ 14000000000000000000 }
{
    ln / 10_000 * FACTOR
}

fn rounded(term: usize) -> usize
    requires { term ≤ 14000000000000000000 }
    ensures { result ≤ 14001 }
{
    (term + THOUSANDTH / 2) / THOUSANDTH
}

// Whether a term is nearer than a thousandth part to a half: the sums here are some fifty times more exact than that.
fn near_a_half(term: usize) -> bool {
    let part = term % THOUSANDTH;
    let low = THOUSANDTH / 2 - THOUSANDTH / 1000;
    let high = THOUSANDTH / 2 + THOUSANDTH / 1000;
    low < part && part < high
}

// What a hairpin costs, its mismatch left out.
#[tactic(auto, using(figures::proofs::Charges::fold_reach))]
fn hairpin(size: usize) -> usize
    requires { (30 ≤ size) × (size + 2 ≤ fold_limit) }
    ensures { result ≤ 1000000000 }
{
    let energy = figures::charge(Loop::Hairpin(size), 0, 0, 0);
    ints::magnitude(energy)
}

fn tell(rt: &impl Print, size: usize, term: usize) -> io::Result<()> {
    print!(rt; "size {size} adds {term}")
}

// The sizes whose terms the rules name.
fn named(size: usize) -> bool {
    matches!(size, 31 | 58 | 60)
}

// Whether the table adds, for a size whose logarithm is so many units, what is made here; what it finds is written out.
fn agrees(rt: &impl Print, size: usize, ln: usize) -> io::Result<bool>
    requires { (30 ≤ size) × (size + 2 ≤ fold_limit) × (ln ≤ 12800000000000) }
{
    let term = scaled(ln);
    let made = rounded(term);
    let same = hairpin(TABLED) + made == hairpin(size);
    if near_a_half(term) {
        tell(rt, size, made)?;
        println!(rt; ", too near a half to tell")?;
        return Ok(false);
    }
    if !same {
        tell(rt, size, made)?;
        println!(rt; ", and the table says otherwise")?;
        return Ok(false);
    }
    if named(size) {
        tell(rt, size, made)?;
        println!(rt;)?;
    }
    Ok(true)
}

// How many terms agree, of all sizes that a fold may have.
fn agreeing(rt: &impl Print) -> io::Result<usize> {
    let mut ln = 0;
    let mut count = 0;
    for size in TABLED + 1..=FOLD_LIMIT - 2 {
        ln += step(size - 1);
        count += usize::from(agrees(rt, size, ln)?);
    }
    Ok(count)
}

fn main(rt: HostRuntime) -> io::Result<()> {
    let count = agreeing(&rt)?;
    let all = FOLD_LIMIT - 2 - TABLED;
    println!(rt; "{count} of {all} terms agree")
}
