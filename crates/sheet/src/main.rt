// The bench sheet: its lines run through the public calls, and what each comes to written out.
// The lines that are marked as proved are also the table of specs/Lines.antt, proved in proofs/Table.antt.
#![tactic(auto)]

use counting::Record;
use refusals::Refusal;
use std::fmt::Display;
use std::io;

// What a call answers: a number, or a refusal.
fn tell<T: Display + Drop>(rt: &impl Print, answer: Result<T, Refusal>) -> io::Result<()> {
    match answer {
        Ok(n) => print!(rt; " is {n}"),
        Err(refusal) => print!(rt; " {refusal}"),
    }
}

fn tell_line(rt: &impl Print, answer: Result<usize, Refusal>) -> io::Result<()> {
    tell(rt, answer)?;
    println!(rt;)
}

fn text(rt: &impl Print, s: &[u8], pairs: &mut [u16]) -> io::Result<()> {
    print!(rt; "text ")?;
    rt.write_all(s)?;
    tell_line(rt, brackets::from_dot_bracket(s, pairs))
}

fn texts(rt: &impl Print) -> io::Result<()> {
    let mut pairs = [0u16; 4];
    text(rt, b"", &mut pairs)?;
    text(rt, b")(", &mut pairs)?;
    text(rt, b"(.x", &mut pairs)?;
    text(rt, b".(()", &mut pairs)
}

fn distances(rt: &impl Print) -> io::Result<()> {
    let mut a = [0u16; 9];
    let mut b = [0u16; 9];
    text(rt, b"(((...)))", &mut a)?;
    text(rt, b"((...))..", &mut b)?;
    print!(rt; "base pair distance")?;
    tell_line(rt, distances::base_pair_distance(&a, &b))?;
    print!(rt; "mountain distance")?;
    tell_line(rt, distances::mountain_distance(&a, &b))
}

// The brackets of the first n positions.
fn brackets(rt: &impl Print, pairs: &[u16], n: usize) -> io::Result<()> {
    let mut text = [0u8; 32];
    // Never so here: a test is shorter than the proof of that. Nor is the table of a fold refused.
    if pairs.len() < n || text.len() < n {
        return Ok(());
    }
    let _ = brackets::to_dot_bracket(&pairs[..n], &mut text);
    print!(rt; " ")?;
    rt.write_all(&text[..n])
}

fn count(rt: &impl Print, seq: &[u8], gap: usize) -> io::Result<()> {
    let mut bases = [0u8; 16];
    let mut cells = [0u16; 136];
    let mut pairs = [0u16; 16];
    print!(rt; "count ")?;
    rt.write_all(seq)?;
    print!(rt; " gap {gap}")?;
    let folded = counting::nussinov(seq, gap, &mut bases, &mut cells, &mut pairs);
    tell(rt, folded.map(|(_, m)| m))?;
    brackets(rt, &pairs, seq.len())?;
    println!(rt;)
}

fn strands(rt: &impl Print) -> io::Result<()> {
    count(rt, b"A", 3)?;
    count(rt, b"GC", 0)?;
    count(rt, b"GC", 1)?;
    count(rt, b"GGGGCCCC", 3)?;
    count(rt, b"GGGAAACCC", 3)?;
    count(rt, b"aaaauuu", 0)?;
    count(rt, b"GGUUAAUU", 0)?;
    count(rt, b"gcGCtAta", 0)
}

// The least energy of a strand, in memory for 257 bases.
fn least_energy(seq: &[u8], pairs: &mut [u16]) -> Result<i32, Refusal> {
    let mut bases = [0u8; 257];
    let mut paired = [0; 33153];
    let mut any = [0; 33153];
    let mut arms = [0; 33153];
    energy::zuker_mfe(seq, &mut bases, &mut paired, &mut any, &mut arms, pairs)
}

fn energy(rt: &impl Print, seq: &[u8]) -> io::Result<()> {
    let mut pairs = [0u16; 32];
    print!(rt; "energy ")?;
    rt.write_all(seq)?;
    tell(rt, least_energy(seq, &mut pairs))?;
    brackets(rt, &pairs, seq.len())?;
    println!(rt;)
}

// The last two have several structures of the least energy: the order of choices decides.
fn least_energies(rt: &impl Print) -> io::Result<()> {
    energy(rt, b"GGAAACC")?;
    energy(rt, b"GGGAAACCC")?;
    energy(rt, b"GGGAAAACCC")?;
    energy(rt, b"GGGAAAAAAGGGAAACCCCCC")?;
    energy(rt, b"CGGGGCCCGGCC")?;
    energy(rt, b"UGGCGGCGCCCGGC")
}

// The structure that a record leads to.
fn traced(rt: &impl Print, held: Record, bases: &[u8], cells: &[u16]) -> io::Result<()> {
    let mut pairs = [0u16; 16];
    let n = held.length;
    let _ = count_edits::traceback(held, bases, cells, &mut pairs);
    brackets(rt, &pairs, n)?;
    println!(rt;)
}

// What an edit answers, and the record after it.
fn edited(
    rt: &impl Print,
    answer: Result<(Record, usize), (Refusal, Record)>,
    bases: &[u8],
    cells: &[u16],
) -> io::Result<Record> {
    match answer {
        Ok((after, m)) => {
            print!(rt; " is {m}")?;
            traced(rt, after, bases, cells)?;
            Ok(after)
        }
        Err((refusal, kept)) => {
            print!(rt; " {refusal}")?;
            Ok(kept)
        }
    }
}

fn edits(rt: &impl Print) -> io::Result<()> {
    let mut bases = [0u8; 16];
    let mut cells = [0u16; 136];
    let mut pairs = [0u16; 16];
    let Ok((fresh, _)) = counting::nussinov(b"GGGAAACCC", 3, &mut bases, &mut cells, &mut pairs)
    else {
        return Ok(());
    };
    print!(rt; "GGGAAACCC, place 8 becomes A")?;
    let replaced = count_edits::replace(fresh, &mut bases, &mut cells, 8, b'A');
    let held = edited(rt, replaced, &bases, &cells)?;
    print!(rt; "then C is added")?;
    let added = count_edits::add(held, &mut bases, &mut cells, b'C');
    edited(rt, added, &bases, &cells)?;
    Ok(())
}

fn fold_limits(rt: &impl Print) -> io::Result<()> {
    let strand = [b'G'; 257];
    let mut bases = [0u8; 257];
    let mut cells = [0u16; 33153];
    let mut pairs = [0u16; 257];
    print!(rt; "256 bases")?;
    let folded = counting::nussinov(&strand[..256], 3, &mut bases, &mut cells, &mut pairs);
    tell(rt, folded.map(|(_, m)| m))?;
    print!(rt; "\n257 bases")?;
    let longer = counting::nussinov(&strand, 3, &mut bases, &mut cells, &mut pairs);
    tell_line(rt, longer.map(|(_, m)| m))?;
    if let Ok((held, _)) = folded {
        print!(rt; "add at 256 bases")?;
        let added = count_edits::add(held, &mut bases, &mut cells, b'G');
        tell_line(rt, added.map(|(_, m)| m).map_err(|(refusal, _)| refusal))?;
    }
    Ok(())
}

fn energy_limits(rt: &impl Print) -> io::Result<()> {
    let strand = [b'G'; 257];
    let mut pairs = [0u16; 257];
    print!(rt; "energy of 256 bases")?;
    tell(rt, least_energy(&strand[..256], &mut pairs))?;
    print!(rt; "\nenergy of 257 bases")?;
    tell(rt, least_energy(&strand, &mut pairs))?;
    println!(rt;)
}

fn limits(rt: &impl Print) -> io::Result<()> {
    let dots = [b'.'; 4097];
    let mut pairs = [0u16; 4097];
    print!(rt; "4096 positions of text")?;
    tell_line(rt, brackets::from_dot_bracket(&dots[..4096], &mut pairs))?;
    print!(rt; "4097 positions of text")?;
    tell_line(rt, brackets::from_dot_bracket(&dots, &mut pairs))?;
    let table = [65535u16; 4097];
    print!(rt; "4096 positions of a table")?;
    tell_line(rt, queries::num_pairs(&table[..4096]))?;
    print!(rt; "4097 positions of a table")?;
    tell_line(rt, queries::num_pairs(&table))
}

fn main(rt: HostRuntime) -> io::Result<()> {
    texts(&rt)?;
    strands(&rt)?;
    least_energies(&rt)?;
    edits(&rt)?;
    distances(&rt)?;
    limits(&rt)?;
    fold_limits(&rt)?;
    energy_limits(&rt)
}
