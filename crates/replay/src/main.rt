// Replays the fixed list of the original's answers: each line's strand is folded both ways, and what comes is compared with the line.
// The list is data/answers.txt, which tests/oracle/make-answers makes.
#![tactic(auto)]

use fields::Lines;
use refusals::FOLD_LIMIT;
use report::Tally;
use std::fs::File;
use std::io;

mod report;

// The most bases at which the original's energy and structure are ours; from more, its energy is near, and its structure may be another.
const EXACT: usize = 32;

// The cells of the longest fold there is.
const CELLS: usize = FOLD_LIMIT * (FOLD_LIMIT + 1) / 2;

// Is the number of pairs the line's COUNT?
fn count_agrees(count: usize, field: &[u8]) -> bool {
    fields::decimal(field) == Some(count)
}

// By how many thousandths the original's energy of n bases may differ:
// ours rounds the terms of loops above size 30, of which each has 31 bases or more.
fn slack(n: usize) -> usize {
    if n <= EXACT { 0 } else { n / 31 }
}

// Is an energy of n bases the line's ENERGY? A fold's is never above 0.
fn energy_agrees(energy: i32, n: usize, field: &[u8]) -> bool {
    let Some(due) = fields::thousandths(field) else {
        return false;
    };
    energy <= 0 && due <= 0 && i64::from(energy).abs_diff(due) <= slack(n) as u64
}

// Room for the longest fold there is.
#[derive(Drop)]
struct Room {
    bases: [u8; FOLD_LIMIT],
    cells: [u16; CELLS],
    paired: [i32; CELLS],
    any: [i32; CELLS],
    arms: [i32; CELLS],
    pairs: [u16; FOLD_LIMIT],
}

impl Room {
    fn new() -> Self {
        Self {
            bases: [0; FOLD_LIMIT],
            cells: [0; CELLS],
            paired: [0; CELLS],
            any: [0; CELLS],
            arms: [0; CELLS],
            pairs: [0; FOLD_LIMIT],
        }
    }

    // Does the pair-count fold of a line's strand come to the line's COUNT and the first BRACKETS?
    fn count_fold_agrees(&mut self, line: &[u8]) -> bool {
        if !fields::has_fields(line, 6) {
            return false;
        }
        let Some(gap) = fields::decimal(fields::field(line, 0)) else {
            return false;
        };
        let folded = counting::nussinov(
            fields::field(line, 1),
            gap,
            &mut self.bases,
            &mut self.cells,
            &mut self.pairs,
        );
        let Ok((record, count)) = folded else {
            return false;
        };
        count_agrees(count, fields::field(line, 2))
            && self.brackets_agree(record.length, fields::field(line, 3))
    }

    // Does the energy fold of a line's strand come to the line's ENERGY and, where that is exact, the last BRACKETS?
    fn energy_fold_agrees(&mut self, line: &[u8]) -> bool {
        if !fields::has_fields(line, 6) {
            return false;
        }
        let strand = fields::field(line, 1);
        let least = energy::zuker_mfe(
            strand,
            &mut self.bases,
            &mut self.paired,
            &mut self.any,
            &mut self.arms,
            &mut self.pairs,
        );
        let Ok(energy) = least else {
            return false;
        };
        let n = strand.len();
        energy_agrees(energy, n, fields::field(line, 4))
            && (EXACT < n || self.brackets_agree(n, fields::field(line, 5)))
    }

    // Is the text of the first n places of the pair table the BRACKETS that a line has for it?
    fn brackets_agree(&self, n: usize, field: &[u8]) -> bool {
        let Some(table) = self.pairs.get(..n) else {
            return false;
        };
        let mut text = [0u8; FOLD_LIMIT];
        match brackets::to_dot_bracket(table, &mut text) {
            Ok(n) => text.get(..n) == Some(field),
            Err(_) => false,
        }
    }
}

// Every line of the list, folded in the same memory.
fn replay(list: &[u8]) -> Tally {
    let mut room = Room::new();
    let mut tally = Tally::new();
    for line in Lines(list) {
        let count = room.count_fold_agrees(line);
        let energy = room.energy_fold_agrees(line);
        tally = tally.with(count, energy);
    }
    tally
}

// The list is shorter than the room for it. What is past the room isn't read, and a line that is cut there differs.
fn main(rt: HostRuntime) -> io::Result<()> {
    let mut file = File::open(&rt, "answers.txt")?;
    let mut list = [0u8; 400000];
    let n = fields::read_full(&mut file, &mut list)?;
    let tally = replay(&list[..n]);
    print!(rt; "{tally}")
}
