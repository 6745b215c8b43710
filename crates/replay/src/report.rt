// What the lines come to, counted and written out.
ghost use Rattle.std.specs.Prelude.{◌≡◌, ◌+◌, ◌≤◌, ◌<◌};

use std::fmt;

// The lines so far, those whose pair-count fold agrees, those whose energy fold does, and the first that differs in either,
// counted from 1.
#[derive(Clone, Copy)]
pub struct Tally {
    lines: usize,
    counts: usize,
    energies: usize,
    first: Option<usize>,
    ghost counts_of_lines: { counts ≤ lines },
    ghost energies_of_lines: { energies ≤ lines },
}

impl Tally {
    pub fn new() -> Self
        ensures { result.lines ≡ 0 }
    {
        Self {
            lines: 0,
            counts: 0,
            energies: 0,
            first: None,
        }
    }

    // One line more.
    pub fn with(self, count: bool, energy: bool) -> Self
        requires { self.lines < 18446744073709551615 }
        ensures { result.lines ≤ self.lines + 1 }
    {
        let lines = self.lines + 1;
        let differs = if count && energy { None } else { Some(lines) };
        Self {
            lines,
            counts: self.counts + usize::from(count),
            energies: self.energies + usize::from(energy),
            first: self.first.or(differs),
        }
    }
}

// The last line is there only where a line differs.
impl fmt::Display for Tally {
    fn fmt<W: fmt::Write>(&self, f: &mut fmt::Formatter<W>) -> fmt::Result {
        writeln!(f, "{} lines", self.lines)?;
        writeln!(f, "{} counts and structures agree", self.counts)?;
        writeln!(f, "{} energies agree", self.energies)?;
        if let Some(line) = self.first {
            writeln!(f, "line {line} differs")?;
        }
        Ok(())
    }
}
