// The C interface: the libraries' calls under plain names, their answers flattened into structs of numbers. No logic stands here:
// the exports are alike, and each has its own name and contract.
// include/yukemasop.h declares each call; a struct's first field is the refusal's number (0: accepted),
// its second the place (the largest usize: none).
#![tactic(auto)]

ghost use Rattle.std.specs.Prelude.{◌≡◌};
ghost use Rattle.bases.specs.Bases.{reads, can_pair, pair_index};
ghost use Rattle.queries.specs.Calls.{Lists, Pairs, Partners, Counts};
ghost use Rattle.brackets.specs.Calls.{Parses, Spells};
ghost use Rattle.distances.specs.Distance.{Measures, base_pair_distance, mountain_distance};
ghost use Rattle.counting.specs.Calls.{Folds};
ghost use Rattle.count_edits.specs.Calls.{Replaces, Adds, Erases, Traces};
ghost use Rattle.energy.specs.Calls.{Folds as EnergyFolds};
ghost use Rattle.flat.specs.Flat.{flat_base, flat_answer, flat_pairing, flat_partner};
ghost use Rattle.flat.specs.Flat.{flat_counted, flat_edited, flat_least, record_in, Flat};

use flat::{YkmAnswer, YkmBase, YkmCounted, YkmLeast, YkmRecord};

// 0.1.0, as major × 10,000 + minor × 100 + patch.
pub const VERSION: u32 = 100;

#[unsafe(no_mangle)]
pub extern "C" fn ykm_version() -> u32
    ensures { result ≡ 100 }
{
    VERSION
}

#[unsafe(no_mangle)]
pub extern "C" fn ykm_read_base(byte: u8) -> YkmBase
    ensures { result ≡ flat_base (reads byte) }
{
    bases::read_base(byte).into()
}

#[unsafe(no_mangle)]
pub extern "C" fn ykm_can_pair(a: u8, b: u8) -> bool
    ensures { result ≡ can_pair a b }
{
    bases::can_pair(a, b)
}

#[unsafe(no_mangle)]
pub extern "C" fn ykm_pair_index(a: u8, b: u8) -> usize
    ensures { result ≡ pair_index a b }
{
    bases::pair_index(a, b)
}

#[unsafe(no_mangle)]
pub extern "C" fn ykm_from_dot_bracket(text: &[u8], pairs: &mut [u16]) -> YkmAnswer
    ensures { Flat flat_answer (Parses text.now pairs.old pairs.new) result }
{
    brackets::from_dot_bracket(text, pairs).into()
}

#[unsafe(no_mangle)]
pub extern "C" fn ykm_to_dot_bracket(pairs: &[u16], text: &mut [u8]) -> YkmAnswer
    ensures { Flat flat_answer (Spells pairs.now text.old text.new) result }
{
    brackets::to_dot_bracket(pairs, text).into()
}

#[unsafe(no_mangle)]
pub extern "C" fn ykm_base_pairs(pairs: &[u16], out: &mut [u16]) -> YkmAnswer
    ensures { Flat flat_answer (Lists pairs.now out.old out.new) result }
{
    queries::base_pairs(pairs, out).into()
}

#[unsafe(no_mangle)]
pub extern "C" fn ykm_is_paired(pairs: &[u16], i: usize) -> YkmAnswer
    ensures { Flat flat_pairing (Pairs pairs.now i) result }
{
    queries::is_paired(pairs, i).into()
}

#[unsafe(no_mangle)]
pub extern "C" fn ykm_partner(pairs: &[u16], i: usize) -> YkmAnswer
    ensures { Flat flat_partner (Partners pairs.now i) result }
{
    queries::partner(pairs, i).into()
}

#[unsafe(no_mangle)]
pub extern "C" fn ykm_num_pairs(pairs: &[u16]) -> YkmAnswer
    ensures { Flat flat_answer (Counts pairs.now) result }
{
    queries::num_pairs(pairs).into()
}

#[unsafe(no_mangle)]
pub extern "C" fn ykm_base_pair_distance(a: &[u16], b: &[u16]) -> YkmAnswer
    ensures { Flat flat_answer (Measures a.now b.now (base_pair_distance a.now b.now)) result }
{
    distances::base_pair_distance(a, b).into()
}

#[unsafe(no_mangle)]
pub extern "C" fn ykm_mountain_distance(a: &[u16], b: &[u16]) -> YkmAnswer
    ensures { Flat flat_answer (Measures a.now b.now (mountain_distance a.now b.now)) result }
{
    distances::mountain_distance(a, b).into()
}

#[unsafe(no_mangle)]
pub extern "C" fn ykm_nussinov(
    seq: &[u8],
    gap: usize,
    bases: &mut [u8],
    cells: &mut [u16],
    pairs: &mut [u16],
) -> YkmCounted
    ensures { Flat flat_counted (Folds seq.now gap bases.old bases.new cells.old cells.new pairs.old pairs.new) result }
{
    counting::nussinov(seq, gap, bases, cells, pairs).into()
}

#[unsafe(no_mangle)]
pub extern "C" fn ykm_zuker_mfe(
    seq: &[u8],
    bases: &mut [u8],
    paired: &mut [i32],
    any: &mut [i32],
    arms: &mut [i32],
    pairs: &mut [u16],
) -> YkmLeast
    ensures { Flat flat_least
        (EnergyFolds seq.now bases.old bases.new paired.old any.old arms.old paired.new any.new arms.new pairs.old pairs.new)
        result }
{
    energy::zuker_mfe(seq, bases, paired, any, arms, pairs).into()
}

#[unsafe(no_mangle)]
pub extern "C" fn ykm_replace(
    held: YkmRecord,
    bases: &mut [u8],
    cells: &mut [u16],
    position: usize,
    byte: u8,
) -> YkmCounted
    ensures { Flat flat_edited (Replaces (record_in held) bases.old bases.new cells.old cells.new position byte) result }
{
    count_edits::replace(held.into(), bases, cells, position, byte).into()
}

#[unsafe(no_mangle)]
pub extern "C" fn ykm_add(
    held: YkmRecord,
    bases: &mut [u8],
    cells: &mut [u16],
    byte: u8,
) -> YkmCounted
    ensures { Flat flat_edited (Adds (record_in held) bases.old bases.new cells.old cells.new byte) result }
{
    count_edits::add(held.into(), bases, cells, byte).into()
}

#[unsafe(no_mangle)]
pub extern "C" fn ykm_erase(held: YkmRecord, bases: &[u8], cells: &[u16]) -> YkmCounted
    ensures { Flat flat_edited (Erases (record_in held) bases.now cells.now) result }
{
    count_edits::erase(held.into(), bases, cells).into()
}

#[unsafe(no_mangle)]
pub extern "C" fn ykm_traceback(
    held: YkmRecord,
    bases: &[u8],
    cells: &[u16],
    pairs: &mut [u16],
) -> YkmAnswer
    ensures { Flat flat_answer (Traces (record_in held) bases.now cells.now pairs.old pairs.new) result }
{
    count_edits::traceback(held.into(), bases, cells, pairs).into()
}
