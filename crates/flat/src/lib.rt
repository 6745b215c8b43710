// Answers as structs of numbers, for C: a struct's number is the refusal's, 0 where there is none, as C reads it.
#![tactic(auto)]

ghost use Rattle.std.specs.Prelude.{◌≡◌};
ghost use Rattle.bases.specs.Bases.{told};
ghost use Rattle.flat.specs.Flat.{flat_place, flat_base, flat_refusal, flat_answer, flat_pairing, flat_partner};
ghost use Rattle.flat.specs.Flat.{flat_made, flat_unmade, flat_counted, flat_edited, flat_least, record_in, record_out};

use bases::Base;
use counting::Record;
use refusals::Refusal;

#[repr(C)]
#[derive(Clone, Copy, Debug, PartialEq, Eq)]
pub struct YkmBase {
    pub number: u32,
    pub place: usize,
    pub letter: u8,
}

#[repr(C)]
#[derive(Clone, Copy, Debug, PartialEq, Eq)]
pub struct YkmAnswer {
    pub number: u32,
    pub place: usize,
    pub value: usize,
}

#[repr(C)]
#[derive(Clone, Copy, Debug, PartialEq, Eq)]
pub struct YkmRecord {
    pub length: usize,
    pub gap: usize,
}

#[repr(C)]
#[derive(Clone, Copy, Debug, PartialEq, Eq)]
pub struct YkmCounted {
    pub number: u32,
    pub place: usize,
    pub kept: YkmRecord,
    pub count: usize,
}

#[repr(C)]
#[derive(Clone, Copy, Debug, PartialEq, Eq)]
pub struct YkmLeast {
    pub number: u32,
    pub place: usize,
    pub energy: i32,
}

// No place is the largest number.
pub fn flat_place(place: Option<usize>) -> usize
    ensures { result ≡ flat_place place }
{
    place.unwrap_or(usize::MAX)
}

impl From<Option<Base>> for YkmBase {
    ghost from_gives = { λ base r. r ≡ flat_base (told base) };

    fn from(base: Option<Base>) -> Self {
        let refusal = Refusal::NoBase(0);
        let (number, place, letter) = match base {
            Some(base) => (0, None, bases::letter(base)),
            None => (refusal.number(), refusal.place(), 0),
        };
        YkmBase {
            number,
            place: flat_place(place),
            letter,
        }
    }
}

impl From<Refusal> for YkmAnswer {
    ghost from_gives = { λ refusal r. r ≡ flat_refusal refusal };

    fn from(refusal: Refusal) -> Self {
        YkmAnswer {
            number: refusal.number(),
            place: flat_place(refusal.place()),
            value: 0,
        }
    }
}

impl From<Result<usize, Refusal>> for YkmAnswer {
    ghost from_gives = { λ answer r. r ≡ flat_answer answer };

    fn from(answer: Result<usize, Refusal>) -> Self {
        match answer {
            Ok(value) => YkmAnswer {
                number: 0,
                place: flat_place(None),
                value,
            },
            Err(refusal) => refusal.into(),
        }
    }
}

impl From<Result<bool, Refusal>> for YkmAnswer {
    ghost from_gives = { λ pairing r. r ≡ flat_pairing pairing };

    fn from(pairing: Result<bool, Refusal>) -> Self {
        pairing.map(usize::from).into()
    }
}

impl From<Result<Option<usize>, Refusal>> for YkmAnswer {
    ghost from_gives = { λ partner r. r ≡ flat_partner partner };

    fn from(partner: Result<Option<usize>, Refusal>) -> Self {
        partner.map(flat_place).into()
    }
}

// The record of the library and that of C have the same fields: C's stands in the header.
impl From<Record> for YkmRecord {
    ghost from_gives = { λ kept r. r ≡ record_out kept };

    fn from(kept: Record) -> Self {
        YkmRecord {
            length: kept.length,
            gap: kept.gap,
        }
    }
}

impl From<YkmRecord> for Record {
    ghost from_gives = { λ held r. r ≡ record_in held };

    fn from(held: YkmRecord) -> Self {
        Record {
            length: held.length,
            gap: held.gap,
        }
    }
}

// A fold or an edit that was made.
fn accepted(kept: Record, count: usize) -> YkmCounted
    ensures { result ≡ flat_made kept count }
{
    YkmCounted {
        number: 0,
        place: flat_place(None),
        kept: kept.into(),
        count,
    }
}

// One that was refused, with the record that goes back.
fn refused(refusal: Refusal, kept: YkmRecord) -> YkmCounted
    ensures { result ≡ flat_unmade refusal kept }
{
    YkmCounted {
        number: refusal.number(),
        place: flat_place(refusal.place()),
        kept,
        count: 0,
    }
}

impl From<Result<(Record, usize), Refusal>> for YkmCounted {
    ghost from_gives = { λ counted r. r ≡ flat_counted counted };

    fn from(counted: Result<(Record, usize), Refusal>) -> Self {
        match counted {
            Ok((folded, count)) => accepted(folded, count),
            Err(refusal) => refused(refusal, YkmRecord { length: 0, gap: 0 }),
        }
    }
}

impl From<Result<(Record, usize), (Refusal, Record)>> for YkmCounted {
    ghost from_gives = { λ edited r. r ≡ flat_edited edited };

    fn from(edited: Result<(Record, usize), (Refusal, Record)>) -> Self {
        match edited {
            Ok((made, count)) => accepted(made, count),
            Err((refusal, back)) => refused(refusal, back.into()),
        }
    }
}

impl From<Result<i32, Refusal>> for YkmLeast {
    ghost from_gives = { λ minimum r. r ≡ flat_least minimum };

    fn from(minimum: Result<i32, Refusal>) -> Self {
        match minimum {
            Ok(energy) => YkmLeast {
                number: 0,
                place: flat_place(None),
                energy,
            },
            Err(refusal) => YkmLeast {
                number: refusal.number(),
                place: flat_place(refusal.place()),
                energy: 0,
            },
        }
    }
}
