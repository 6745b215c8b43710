// What is asked of a pair table: how many pairs, whether a position pairs and with whom, the list of pairs.
#![tactic(auto)]

ghost use Rattle.std.specs.Prelude.{◌≡◌, ◌++◌, ◌+◌, ◌*◌, ◌<◌, ◌≤◌, length, drop};
ghost use Rattle.std.proofs.lemmas.List.Edits.{sets};
ghost use Rattle.refusals.specs.Refusals.{structure_limit};
ghost use Rattle.structure.specs.Table.{view, opens, pairs};
ghost use Rattle.queries.specs.Calls.{listed_at, listed, Lists, Pairs, Partners, Counts};

use refusals::Refusal;

// The number of pairs of a table.
fn count(table: &[u16]) -> usize
    ensures { result ≡ pairs table.now }
{
    let mut n = 0;
    for (k, &v) in table.iter().enumerate() {
        n += usize::from(structure::opens(k, v));
    }
    n
}

// Writes the pair that opens at k, where its entry v does, at place n, and says where the next one goes. The list is C's, two
// numbers a pair in lent memory, and how many pairs it gets is known only as they are met.
fn enter(k: usize, v: u16, n: usize, out: &mut [u16]) -> usize
    requires k_bound { k < 65536 }
    requires v_in_bounds { n + 2 * opens k v ≤ length out.old }
    ensures value { result ≡ n + 2 * opens k v }
    ensures out_after { out.new ≡ sets out.old n (listed_at k v) }
{
    if !structure::opens(k, v) {
        return n;
    }
    out[n] = k as u16;
    out[n + 1] = v;
    n + 2
}

// Writes the pairs of a table, by rising opening position.
fn list(table: &[u16], out: &mut [u16])
    requires table_len_bound { length table.now ≤ structure_limit }
    requires table_in_bounds { 2 * pairs table.now ≤ length out.old }
    ensures { out.new ≡ listed (view table.now) (length table.now) ++ drop (2 * pairs table.now) out.old }
{
    let mut end = 0;
    for (k, &v) in table.iter().enumerate() {
        end = enter(k, v, end, out);
    }
}

// The number of pairs.
pub fn num_pairs(pairs: &[u16]) -> Result<usize, Refusal>
    ensures { Counts pairs.now result }
{
    structure::verify(pairs)?;
    Ok(count(pairs))
}

// Does position i have a partner? A place outside has none.
pub fn is_paired(pairs: &[u16], i: usize) -> Result<bool, Refusal>
    ensures { Pairs pairs.now i result }
{
    structure::verify(pairs)?;
    Ok(i < pairs.len() && pairs[i] != 65535)
}

// The partner of position i. A place outside has none.
pub fn partner(pairs: &[u16], i: usize) -> Result<Option<usize>, Refusal>
    ensures { Partners pairs.now i result }
{
    structure::verify(pairs)?;
    match pairs.get(i) {
        Some(&v) if v != 65535 => Ok(Some(usize::from(v))),
        _ => Ok(None),
    }
}

// Writes the pairs as i, j, i, j, .., i < j, by rising i. The number of pairs.
#[tactic(auto, using(crate::proofs::Listing::room_laws), unfolding(structure::specs::Soundness::write_due))]
pub fn base_pairs(pairs: &[u16], out: &mut [u16]) -> Result<usize, Refusal>
    ensures { Lists pairs.now out.old out.new result }
{
    structure::verify(pairs)?;
    let n = count(pairs);
    if out.len() < 2 * n {
        return Err(Refusal::TooShort);
    }
    list(pairs, out);
    Ok(n)
}
