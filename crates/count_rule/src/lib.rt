// The rule of pair counting: which positions may pair, the cell rule, and that its cells are the greatest counts (specs/, proofs/).
#![tactic(auto)]

ghost use Rattle.std.specs.Prelude.{◌≡◌, ◌&&◌, ltb};
ghost use Rattle.bases.specs.Bases.{can_pair};

// Whether two bases so far apart may pair.
pub fn may_pair(a: u8, b: u8, apart: usize, gap: usize) -> bool
    ensures { result ≡ (can_pair a b && ltb gap apart) }
{
    bases::can_pair(a, b) && gap < apart
}
