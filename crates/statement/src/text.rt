// Error text, and the end of the file.
ghost use Rattle.std.specs.Prelude.{◌<◌};
ghost use Rattle.reading.specs.Rules.{error, error_in_block, eof};
ghost use Rattle.state.specs.Acts.{Fit, TellsLeaf};
ghost use Rattle.trivia.specs.Class.{bit_of};
ghost use Rattle.statement.specs.Shapes.{error_of};

use crate::lift::lifted;
use cursor::Cursor;
use lexis::mark;
use lexis::spot::{Lines, Spot};
use state::{Done, ErrorCode, State};
use table::{Kind, Pos};
use trivia::class::Class;

// Text up to a byte of the class, which is reported.
fn error_text(
    s: &[u8],
    c: Cursor,
    st: State,
    class: Class,
    rows: &mut [u32],
    errors: &mut [u32],
) -> Done
    requires { Fit 0 s.now c st }
    ensures { TellsLeaf (error_of (bit_of class)) s.now c st rows.old rows.new errors.old errors.new result }
{
    let p = Spot::<Lines>::new(s, Cursor { met: false, ..c });
    let read = mark::run(p, class, false, Kind::Error, rows);
    let (d, x) = lifted(s, st, read, errors)?;
    let y = state::report(x, ErrorCode::UnexpectedText, p.end.at, d.at, errors);
    Ok((d, y))
}

pub fn error(s: &[u8], c: Cursor, st: State, rows: &mut [u32], errors: &mut [u32]) -> Done
    requires { Fit 0 s.now c st }
    ensures { TellsLeaf error s.now c st rows.old rows.new errors.old errors.new result }
{
    error_text(s, c, st, Class::EndsError, rows, errors)
}

pub fn error_in_block(s: &[u8], c: Cursor, st: State, rows: &mut [u32], errors: &mut [u32]) -> Done
    requires { Fit 0 s.now c st }
    ensures { TellsLeaf error_in_block s.now c st rows.old rows.new errors.old errors.new result }
{
    error_text(s, c, st, Class::EndsErrorInBlock, rows, errors)
}

// All that is left, behind trivia.
pub fn eof(s: &[u8], c: Cursor, st: State, rows: &mut [u32], errors: &mut [u32]) -> Done
    requires { Fit 0 s.now c st }
    ensures { TellsLeaf eof s.now c st rows.old rows.new errors.old errors.new result }
{
    let k = trivia::multiline_trivia(s, c.at, false);
    let read = mark::row(
        Cursor { met: false, ..c },
        k,
        Pos(s.len()),
        Kind::Eof,
        0,
        rows,
    );
    lifted(s, st, read, errors)
}
