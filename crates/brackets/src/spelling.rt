// The bracket text of a pair table.
ghost use Rattle.std.specs.Prelude.{◌≡◌, ◌++◌, ◌≤◌, length, drop};
ghost use Rattle.brackets.specs.Brackets.{glyph, brackets};

// The bracket of position k, whose entry is v.
fn bracket(k: usize, v: u16) -> u8
    ensures { result ≡ glyph k v }
{
    if v == 65535 {
        return b'.';
    }
    if usize::from(v) <= k {
        return b')';
    }
    b'('
}

// Writes the brackets of a table.
pub fn spell(table: &[u16], text: &mut [u8])
    requires { length table.now ≤ length text.old }
    ensures { text.new ≡ brackets table.now ++ drop (length table.now) text.old }
{
    // The place is needed beside the entry, and of what is written through an adapter of `text.iter_mut()` a proof knows nothing.
    for (k, &v) in table.iter().enumerate() {
        text[k] = bracket(k, v);
    }
}
