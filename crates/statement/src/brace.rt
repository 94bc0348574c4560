// The braces of a block.
ghost use Rattle.std.specs.Prelude.{false, ◌≡◌, ◌≤◌, ◌<◌, length};
ghost use Rattle.reading.specs.Rules.{multiline_trivia};
ghost use Rattle.state.specs.Acts.{Fit, TellsLeaf, Closes, opening};
ghost use Rattle.statement.specs.Shapes.{mark_of};

use crate::lift::{clear, lifted};
use cursor::{Cursor, Stop};
use lexis::mark;
use lexis::spot::{Lines, Spot};
use state::{Done, ErrorCode, State};
use table::{Kind, Pos, RowIndex};

// The byte b behind the trivia before it. It is written out where it is called, so that no copy of the spot stands in a frame of the cycle.
#[inline(always)]
pub fn mark(mut p: Spot<Lines>, st: State, b: u8, rows: &mut [u32], errors: &mut [u32]) -> Done
    requires { Fit 0 p.text.now p.start st }
    ensures { TellsLeaf (mark_of b) p.entry.text.now p.entry.start st rows.old rows.new errors.old errors.new result }
{
    let s = p.text;
    clear(&mut p);
    let read = mark::char(p, b, rows);
    lifted(s, st, read, errors)
}

// The end of a block whose opening brace stands at `low`, behind trivia from `tlow`: the closing brace, or a report before the trivia and a
// copy of the opening one's row. It is not `expected` of that brace, since the row must be pushed before reading goes on.
pub fn close(
    s: &[u8],
    c: Cursor,
    st: State,
    tlow: Pos,
    low: Pos,
    rows: &mut [u32],
    errors: &mut [u32],
) -> Done
    requires fit { Fit 0 s.now c st }
    requires in_text { (tlow.0 ≤ length s.now) × (low.0 < length s.now) }
    ensures { Closes multiline_trivia (opening tlow.0 low.0) s.now c st rows.old rows.new errors.old errors.new result }
{
    let p = Spot::<Lines>::new(s, Cursor { met: false, ..c });
    let x = match mark(p, st, b'}', rows, errors) {
        Err(Stop::Miss(x)) => x,
        done => return done,
    };
    table::push_row(
        rows,
        c.count,
        Kind::Char,
        1,
        tlow,
        low,
        Pos(low.0 + 1),
        b'}' as usize,
    );
    let y = state::report(x, ErrorCode::ExpectedClosingDelimiter, c.at, c.at, errors);
    let end = Cursor {
        count: RowIndex(c.count.0 + 1),
        met: false,
        ..c
    };
    Ok((end, y))
}
