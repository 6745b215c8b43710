// Signed numbers: the leaves by which the energy crates read, store, add and compare their cells.
// Each contract is an equation, so that callers need no law of the order; proofs/Ints.antt has the laws (`omega ints`).
#![tactic(auto)]

ghost use Rattle.std.specs.Prelude.{◌≡◌, ◌<◌, pos, nat_abs, ◌+ℤ◌, length, get_or, set};
ghost use Rattle.ints.specs.Ints.{minℤ, add_e, Small};

// What a cell holds that has no structure: above every energy.
pub const MARK: i32 = 1_000_000_000;

// The smaller of two. It stays beside `i32::min`, since its contract is in minℤ, of which the theorems on folds speak.
pub fn least(a: i32, b: i32) -> i32
    ensures { result ≡ minℤ a b }
{
    a.min(b)
}

// The sum of two energies: none where either has none.
#[tactic(auto, using(std::proofs::lemmas::Int::ints), unfolding(crate::specs::Ints::add_e))]
pub fn plus(a: i32, b: i32) -> i32
    requires { Small a × Small b }
    ensures { result ≡ add_e a b }
{
    if a < MARK && b < MARK { a + b } else { MARK }
}

// The plain sum of two small numbers. It stays beside `a + b`: docs/PROMISES.md promises the call.
#[tactic(auto, using(std::proofs::lemmas::Int::ints))]
pub fn add(a: i32, b: i32) -> i32
    requires { Small a × Small b }
    ensures { result ≡ a +ℤ b }
{
    a + b
}

// How far a number is from 0, as a size. It stays beside `unsigned_abs`: docs/PROMISES.md promises the call.
pub fn magnitude(a: i32) -> usize
    requires { Small a }
    ensures { result ≡ nat_abs a }
{
    a.unsigned_abs() as usize
}

// One cell of a table. It stays beside `table[at]`: docs/PROMISES.md promises the call.
pub fn cell(table: &[i32], at: usize) -> i32
    requires { at < length table.now }
    ensures { result ≡ get_or table.now at (pos 0) }
{
    table[at]
}

// Stores one cell. It stays beside `cells[at] = energy`: docs/PROMISES.md promises the call.
pub fn store(cells: &mut [i32], at: usize, energy: i32)
    requires { at < length cells.old }
    ensures { cells.new ≡ set cells.old at energy }
{
    cells[at] = energy;
}
