// Writing pair tables: inner parts of every traceback. Who calls them has tested that the places are in the table.
#![tactic(auto)]

ghost use Rattle.std.specs.Prelude.{◌≡◌, ◌≤◌, ◌<◌, length};
ghost use Rattle.structure.specs.Table.{unpaired};
ghost use Rattle.tables.specs.Writing.{cleared, joined};

// Makes the first n positions unpaired.
pub fn clear(pairs: &mut [u16], n: usize)
    requires { n ≤ length pairs.old }
    ensures { pairs.new ≡ cleared n pairs.old }
{
    pairs[..n].fill(65535);
}

// Writes that i and j pair.
pub fn join(pairs: &mut [u16], i: usize, j: usize)
    requires { (i < j) × (j < unpaired) × (j < length pairs.old) }
    ensures { pairs.new ≡ joined pairs.old i j }
{
    pairs[i] = j as u16;
    pairs[j] = i as u16;
}
