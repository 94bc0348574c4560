// Instructions.
ghost use Rattle.std.specs.Prelude.{◌≡◌};
ghost use Rattle.reading.specs.Grammar.{never};
ghost use Rattle.reading.specs.Rules.{opt, multiline_trivia, operand, instruction};
ghost use Rattle.cursor.specs.Agree.{Ready, Reads};
ghost use Rattle.head.specs.Parts.{tried};
ghost use Rattle.head.specs.Heads.{with_operand, implied};

use crate::part;
use cursor::{Cursor, Read, Stop};
use lexis::operator;
use lexis::spot::{Line, Lines, Spot};
use table::Kind;

fn operand(s: &[u8], c: Cursor, left: usize, rows: &mut [u32]) -> Read
    requires { Ready 8 s.now c }
    ensures { Reads operand s.now c left rows.old rows.new result }
{
    operand::operand(Spot::<Line>::new(s, c), left, rows)
}

// A mnemonic, and an operand or none.
fn with_operand(p: Spot<Lines>, left: usize, rows: &mut [u32]) -> Read
    ensures { Reads with_operand p.entry.text.now p.entry.start left rows.old rows.new result }
{
    let d = operator::mnemonic(p, false, rows)?;
    let g = operand(p.text, d, left, rows);
    let h = part::optional(d, g);
    part::whole(p.start, p.end, h, Kind::Instruction, rows)
}

// What was tried from `c` on is not read, whether it fits or not.
#[tactic(auto, unfolding(crate::specs::Parts::tried))]
fn tried(c: Cursor, f: Read) -> Read
    ensures { result ≡ tried c f }
{
    match f {
        Ok(d) => Ok(Cursor { met: d.met, ..c }),
        Err(Stop::Miss(met)) => Ok(Cursor { met, ..c }),
        Err(Stop::Deep) => Err(Stop::Deep),
    }
}

// An implied mnemonic. An operand is tried and not read: what is met and how deep it goes counts.
fn implied(p: Spot<Lines>, left: usize, rows: &mut [u32]) -> Read
    ensures { Reads implied p.entry.text.now p.entry.start left rows.old rows.new result }
{
    let d = operator::mnemonic(p, true, rows)?;
    let attempt = operand(p.text, d, left, rows);
    let g = tried(d, attempt);
    part::whole(p.start, p.end, g, Kind::Instruction, rows)
}

pub fn instruction(p: Spot<Lines>, left: usize, rows: &mut [u32]) -> Read
    ensures { Reads instruction p.entry.text.now p.entry.start left rows.old rows.new result }
{
    let met = match with_operand(p, left, rows) {
        Err(Stop::Miss(met)) => met,
        read => return read,
    };
    implied(p.after(met), left, rows)
}
