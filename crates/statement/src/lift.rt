// From a reader without the state to one with it.
ghost use Rattle.std.specs.Prelude.{false, ◌≡◌, ◌^◌, ◌≤◌, ◌<◌, length};
ghost use Rattle.cursor.specs.Text.{cursor};
ghost use Rattle.statement.specs.Shapes.{Lifted};
ghost use Rattle.reading.specs.Table.{max_text};

use cursor::{Cursor, Read, Stop};
use lexis::spot::{Lines, Spot};
use state::{Done, State};
use table::Pos;

// Takes back that an open comment was met before the spot, for readers without the state.
#[inline(always)]
pub fn clear(p: &mut Spot<Lines>)
    ensures text { p.new.text.now ≡ p.old.text.now }
    ensures start { p.new.start ≡ cursor p.old.start.at.0 p.old.start.count.0 false }
{
    if p.start.met {
        *p = anew(*p);
    }
}

// The spot, with its trivia skipped once more. It is seldom asked for, and so stands apart.
#[inline(never)]
fn anew(p: Spot<Lines>) -> Spot<Lines>
    ensures text { result.text.now ≡ p.entry.text.now }
    ensures start { result.start ≡ cursor p.entry.start.at.0 p.entry.start.count.0 false }
{
    Spot::new(
        p.text,
        Cursor {
            met: false,
            ..p.start
        },
    )
}

// The answer of a reader that was called with no open comment met, and one note of what it met.
pub fn lifted(s: &[u8], st: State, read: Read, errors: &mut [u32]) -> Done
    requires { (length s.now ≤ max_text) × (st.errors < 2 ^ 32) }
    ensures { Lifted (length s.now) read st errors.old errors.new result }
{
    match read {
        Ok(d) => {
            let x = state::note(st, d.met, Pos(s.len()), errors);
            Ok((Cursor { met: false, ..d }, x))
        }
        Err(Stop::Miss(met)) => {
            let x = state::note(st, met, Pos(s.len()), errors);
            Err(Stop::Miss(x))
        }
        Err(Stop::Deep) => Err(Stop::Deep),
    }
}
