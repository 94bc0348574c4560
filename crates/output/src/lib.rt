// What several programs print.
#![tactic(auto)]

use reading::{HasNumber, Refusal};
use std::io;
use std::io::Write;

#[cfg(test)]
mod tests;

// A refusal, as document 01 lists it.
pub fn refusal(out: &mut impl Write, refusal: &impl Refusal) -> io::Result<()> {
    let number = refusal.number();
    let gives = refusal.gives();
    writeln!(out, "refusal number\n{number} {gives}")
}

// Cases: how many are equal, and how many differ.
#[derive(Clone, Copy, Debug, Default, PartialEq, Eq)]
pub struct Tally {
    pub equal: usize,
    pub different: usize,
}

impl Tally {
    // One case more.
    pub fn count(&mut self, same: bool) {
        if same {
            self.equal = self.equal.wrapping_add(1);
        } else {
            self.different = self.different.wrapping_add(1);
        }
    }
}

// Replays an input, of which each line is a case or, behind a `#`, the name of the cases before it. A case is lent as its line. Printed are the
// place of each case that is not the same, and for each name how many are equal and how many differ.
pub fn replay<F: FnMut(&[u8]) -> bool>(
    out: &mut impl Write,
    input: &[u8],
    mut is_same: F,
) -> io::Result<()>
    requires { F.IsAlwaysCallable is_same }
{
    replay_within(out, input, |rest, line| {
        is_same(rest.get(..line).unwrap_or(rest))
    })
}

// The same, with a case lent as the input from its line on, and how many bytes the line has.
pub fn replay_within<F: FnMut(&[u8], usize) -> bool>(
    out: &mut impl Write,
    input: &[u8],
    mut is_same: F,
) -> io::Result<()>
    requires { F.IsAlwaysCallable is_same }
{
    let mut tally = Tally::default();
    let mut at: usize = 0;
    let mut rest = input;
    for line in input.split_inclusive(|&b| b == b'\n') {
        if let Some(name) = line.strip_prefix(b"#") {
            let Tally { equal, different } = tally;
            write!(out, "equal {equal}, different {different}")?;
            out.write_all(name)?;
            tally = Tally::default();
        } else {
            let same = is_same(rest, line.len());
            if !same {
                writeln!(out, "different: byte {at}")?;
            }
            tally.count(same);
        }
        at = at.wrapping_add(line.len());
        rest = rest.get(line.len()..).unwrap_or(&[]);
    }
    Ok(())
}
