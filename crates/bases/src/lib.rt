// Bases: which byte is which base, the letter that is kept of it, and which bases pair.
// Every function takes any byte and refuses by its answer; specs/Bases.antt has the letters and the six pairs.
#![tactic(auto)]

ghost use Rattle.std.specs.Prelude.{◌≡◌};
ghost use Rattle.bases.specs.Bases.{told, reads, letter_of, is_kept, can_pair, pair_index, is_purine};

#[derive(Clone, Copy, Debug, PartialEq, Eq)]
pub enum Base {
    A,
    C,
    G,
    U,
}

// The base of a byte; none is refusal 2.
#[tactic(auto, unfolding(crate::specs::Bases::reads))]
pub fn read_base(byte: u8) -> Option<Base>
    ensures { told result ≡ reads byte }
{
    match byte {
        b'A' | b'a' => Some(Base::A),
        b'C' | b'c' => Some(Base::C),
        b'G' | b'g' => Some(Base::G),
        b'U' | b'u' | b'T' | b't' => Some(Base::U),
        _ => None,
    }
}

// The upper-case letter of a base. A call and no `From`: docs/PROMISES.md promises it.
pub fn letter(base: Base) -> u8
    ensures { result ≡ letter_of base }
{
    match base {
        Base::A => b'A',
        Base::C => b'C',
        Base::G => b'G',
        Base::U => b'U',
    }
}

// Whether a byte is the letter that is kept of a base: asked of reading, so that there is one list of letters.
#[tactic(auto, using(crate::proofs::Laws::kept_some, crate::proofs::Laws::kept_none))]
pub fn is_kept(byte: u8) -> bool
    ensures { result ≡ is_kept byte }
{
    match read_base(byte) {
        Some(base) => letter(base) == byte,
        None => false,
    }
}

// Whether two kept letters may pair: AU, UA, GC, CG, GU, UG. No other bytes do.
#[tactic(auto, unfolding(crate::specs::Bases::can_pair))]
pub fn can_pair(a: u8, b: u8) -> bool
    ensures { result ≡ can_pair a b }
{
    match a {
        b'A' => b == b'U',
        b'C' => b == b'G',
        b'G' => b == b'C' || b == b'U',
        b'U' => b == b'A' || b == b'G',
        _ => false,
    }
}

// The number of a pair in the order AU UA GC CG GU UG, by which the stack figures are laid out; 6 for bytes that don't pair,
// since `ykm_pair_index` answers so.
#[tactic(auto, unfolding(crate::specs::Bases::pair_index))]
pub fn pair_index(a: u8, b: u8) -> usize
    ensures { result ≡ pair_index a b }
{
    match (a, b) {
        (b'A', b'U') => 0,
        (b'U', b'A') => 1,
        (b'G', b'C') => 2,
        (b'C', b'G') => 3,
        (b'G', b'U') => 4,
        (b'U', b'G') => 5,
        _ => 6,
    }
}

// A and G are purines.
#[tactic(auto, unfolding(crate::specs::Bases::is_purine))]
pub fn is_purine(byte: u8) -> bool
    ensures { result ≡ is_purine byte }
{
    byte == b'A' || byte == b'G'
}
