// What structures cost. A line of standard input is a strand and its brackets;
// for each, every loop is written with its opening place, kind and charge, and then the energy.
#![tactic(auto)]

ghost use Rattle.std.specs.Prelude.{◌≡◌, true, ◌<◌, length};
ghost use Rattle.structure.specs.Table.{view};
ghost use Rattle.charges.specs.Loops.{opening};

use charges::Strand;
use fields::Lines;
use figures::Loop;
use refusals::FOLD_LIMIT;
use std::io;

fn kind(rt: &impl Print, kind: Loop) -> io::Result<()> {
    match kind {
        Loop::Hairpin(size) => print!(rt; " hairpin {size}"),
        Loop::Stack => print!(rt; " stack"),
        Loop::Bulge(size) => print!(rt; " bulge {size}"),
        Loop::Internal(left, right) => print!(rt; " internal {left} {right}"),
        Loop::Many(arms) => print!(rt; " many {arms}"),
    }
}

// The loop that opens at i.
fn entry(rt: &impl Print, strand: &Strand, i: usize) -> io::Result<()>
    requires { (i < length strand.now.pairs.now) × (opening i (view strand.now.pairs.now i) ≡ true) }
{
    let charge = strand.charge_at(i);
    rt.print(i)?;
    kind(rt, strand.kind_at(i))?;
    print!(rt; " {charge}, ")
}

fn account(rt: &impl Print, strand: &Strand) -> io::Result<()> {
    for (i, &v) in strand.pairs.iter().enumerate() {
        if structure::opens(i, v) {
            entry(rt, strand, i)?;
        }
    }
    rt.print(strand.energy_of())
}

// What may be charged is; what may not be says why.
fn weigh(rt: &impl Print, bases: &[u8], pairs: &[u16]) -> io::Result<()> {
    if FOLD_LIMIT < pairs.len() {
        return print!(rt; "too long");
    }
    if bases.len() != pairs.len() {
        return print!(rt; "unequal");
    }
    if queries::num_pairs(pairs).is_err() {
        return print!(rt; "unsound");
    }
    let barred = charges::first_barred(bases, pairs);
    if barred < pairs.len() {
        return print!(rt; "barred {barred}");
    }
    account(rt, &Strand { bases, pairs })
}

fn strand(rt: &impl Print, bases: &[u8], text: &[u8]) -> io::Result<()> {
    let mut pairs = [0u16; FOLD_LIMIT];
    let Ok(n) = brackets::from_dot_bracket(text, &mut pairs) else {
        return print!(rt; "no structure");
    };
    // Never `None` after a parse: a test is shorter than the proof of that.
    let Some(table) = pairs.get(..n) else {
        return Ok(());
    };
    weigh(rt, bases, table)
}

fn line(rt: &impl Print, text: &[u8]) -> io::Result<()> {
    if fields::has_fields(text, 2) {
        strand(rt, fields::field(text, 0), fields::field(text, 1))?;
    } else {
        print!(rt; "malformed")?;
    }
    println!(rt;)
}

// What is past the room isn't read.
fn main(rt: HostRuntime) -> io::Result<()> {
    let mut list = [0u8; 65536];
    let n = fields::read_full(&mut rt.reader(), &mut list)?;
    for text in Lines(&list[..n]) {
        line(&rt, text)?;
    }
    Ok(())
}
