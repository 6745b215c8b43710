// Bracket text: what offends in it, what is left open, and the pair table that it spells.
ghost use Rattle.std.specs.Prelude.{◌≡◌, ◌<◌, ◌≤◌, length};
ghost use Rattle.refusals.specs.Refusals.{told, each, structure_limit};
ghost use Rattle.structure.specs.Table.{unpaired, view};
ghost use Rattle.brackets.specs.Text.{next, depth, offends, offence, unclosed};
ghost use Rattle.brackets.specs.Parsing.{Clean, wrote, new_top};
ghost use Rattle.brackets.specs.Calls.{Written};

use refusals::Refusal;

// How many are open after the byte b, where d were before it.
pub fn after(b: u8, d: usize) -> usize
    requires { d < 65536 }
    ensures { result ≡ next b d }
{
    match b {
        b'(' => d + 1,
        b')' => d.saturating_sub(1),
        _ => d,
    }
}

// What the byte b at place k comes to, where d are open.
pub fn offence_at(b: u8, d: usize, k: usize) -> Result<(), Refusal>
    ensures { told result ≡ offends b d k }
{
    match b {
        b'(' | b'.' => Ok(()),
        b')' if d == 0 => Err(Refusal::Unopened(k)),
        b')' => Ok(()),
        _ => Err(Refusal::NoBracket(k)),
    }
}

// One turn of the writing: the byte b at place i, where top is the innermost open place. Returns the next innermost one.
pub fn put(b: u8, i: usize, top: usize, pairs: &mut [u16]) -> usize
    requires i_in_bounds { i < length pairs.old }
    requires i_lt_structure_limit { i < structure_limit }
    requires top_le_unpaired { top ≤ unpaired }
    requires top_lt_i { b ≡ 41 → top < i }
    ensures value { result ≡ new_top b i top pairs.old }
    ensures pairs_after { pairs.new ≡ wrote b i top pairs.old }
{
    match b {
        b'(' => {
            pairs[i] = top as u16;
            i
        }
        b')' => {
            let around = usize::from(pairs[top]);
            pairs[top] = i as u16;
            pairs[i] = top as u16;
            around
        }
        _ => {
            pairs[i] = 65535;
            top
        }
    }
}

// A text that is no longer than the limit.
#[derive(Clone, Copy)]
pub struct Text<'a> {
    pub bytes: &'a [u8],
    pub ghost short: { length bytes.now ≤ structure_limit },
}

impl Text<'_> {
    // The refusal at the first offending place.
    pub fn first_offence(&self) -> Result<(), Refusal>
        ensures { told result ≡ each (offence (view self.now.bytes.now)) (length self.now.bytes.now) }
    {
        let mut d = 0;
        for (k, &b) in self.bytes.iter().enumerate() {
            offence_at(b, d, k)?;
            d = after(b, d);
        }
        Ok(())
    }

    // The refusal at the leftmost unmatched `(`: the last place at which nothing was open, where something is open in the end.
    pub fn first_unmatched(&self) -> Result<(), Refusal>
        ensures { told result ≡ each (unclosed (view self.now.bytes.now) (length self.now.bytes.now)) (length self.now.bytes.now) }
    {
        let mut d = 0;
        let mut first = 0;
        for (k, &b) in self.bytes.iter().enumerate() {
            if d == 0 {
                first = k;
            }
            d = after(b, d);
        }
        if d == 0 {
            return Ok(());
        }
        Err(Refusal::Unclosed(first))
    }

    // Writes the table of the text. An open place's entry holds the open place around it, so no other memory is needed for the stack.
    pub fn fill(&self, pairs: &mut [u16])
        requires text_in_bounds { length self.now.bytes.now ≤ length pairs.old }
        requires clean { Clean (view self.now.bytes.now) (length self.now.bytes.now) }
        requires text_value { depth (view self.now.bytes.now) (length self.now.bytes.now) ≡ 0 }
        ensures { Written self.now.bytes.now pairs.old pairs.new }
    {
        // 65535 where nothing is open: it is kept in the table's entries, where no Option fits.
        let mut top = 65535;
        for (k, &b) in self.bytes.iter().enumerate() {
            top = put(b, k, top, pairs);
        }
    }
}
