// The text of answers: a count, an energy, a refusal, each as the bytes of a line before its brackets or its end.
// specs/Text.antt has each text as a list of bytes, and every contract is an equation with it.
#![tactic(auto)]

ghost use Rattle.std.specs.Prelude.{◌≡◌, ◌∷◌, ◌+◌, ◌%◌, ◌≤◌, length};
ghost use Rattle.io.specs.Counts.{IsPrefixLen};
ghost use Rattle.io.specs.Digits.{last_digits, hex_digit_ascii};
ghost use Rattle.ints.specs.Ints.{Small};
ghost use Rattle.lines.specs.Text.{decimal, sign_of, place_text, pairs_text, energy_text, refused_text, Puts, Holds};

use itoa::Buffer;
use refusals::Refusal;

// Room for the longest text: `refused 11 at 18446744073709551615`, and more.
pub const ROOM: usize = 64;

// A lent buffer, and how long the text in it is so far.
#[derive(Drop)]
struct Line<'a> {
    out: &'a mut [u8; ROOM],
    len: usize,
}

impl Line<'_> {
    fn put(&mut self, text: &[u8])
        requires { self.old.len + length text.now ≤ ROOM }
        ensures { Puts self.old self.new text.now }
    {
        let (start, end) = (self.len, self.len + text.len());
        let out = &mut self.out[..];
        out[start..end].copy_from_slice(text);
        self.len = end;
    }

    // In decimal, with no zeros in front.
    fn number(&mut self, n: usize)
        requires { self.old.len + 20 ≤ ROOM }
        ensures puts { Puts self.old self.new (decimal n) }
        ensures short { self.new.len ≤ self.old.len + 20 }
    {
        self.put(Buffer::new().format(n).as_bytes());
    }

    // The point and always three decimals, of a number of thousandths.
    fn decimals(&mut self, n: usize)
        requires { self.old.len + 4 ≤ ROOM }
        ensures { Puts self.old self.new (46 ∷ last_digits 10 3 n) }
    {
        let text = [
            b'.',
            last_digit(n / 10 / 10),
            last_digit(n / 10),
            last_digit(n),
        ];
        self.put(&text);
    }

    fn sign(&mut self, z: i32)
        requires { self.old.len + 1 ≤ ROOM }
        ensures { Puts self.old self.new (sign_of z) }
    {
        if z < 0 {
            self.put(b"-");
        }
    }

    // Where a refusal points, if it does.
    fn place(&mut self, place: Option<usize>)
        requires { self.old.len + 24 ≤ ROOM }
        ensures { Puts self.old self.new (place_text place) }
    {
        if let Some(k) = place {
            self.put(b" at ");
            self.number(k);
        }
    }
}

fn last_digit(n: usize) -> u8
    ensures { result ≡ hex_digit_ascii (n % 10) }
{
    b'0' + (n % 10) as u8
}

// `pairs 3`.
pub fn pairs(count: usize, out: &mut [u8; ROOM]) -> usize
    ensures prefix_len { IsPrefixLen result out.new }
    ensures holds { Holds out.old out.new (pairs_text count) result }
{
    let mut line = Line { out, len: 0 };
    line.put(b"pairs ");
    line.number(count);
    line.len
}

// `energy -1.200`, from thousandths.
pub fn energy(z: i32, out: &mut [u8; ROOM]) -> usize
    requires { Small z }
    ensures prefix_len { IsPrefixLen result out.new }
    ensures holds { Holds out.old out.new (energy_text z) result }
{
    let n = z.unsigned_abs() as usize;
    let mut line = Line { out, len: 0 };
    line.put(b"energy ");
    line.sign(z);
    line.number(n / 1000);
    line.decimals(n);
    line.len
}

// `refused 1`, or with a place `refused 2 at 4`.
pub fn refused(refusal: Refusal, out: &mut [u8; ROOM]) -> usize
    ensures prefix_len { IsPrefixLen result out.new }
    ensures holds { Holds out.old out.new (refused_text refusal) result }
{
    let mut line = Line { out, len: 0 };
    line.put(b"refused ");
    line.number(refusal.number() as usize);
    line.place(refusal.place());
    line.len
}
