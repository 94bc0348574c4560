// Statements: the twenty alternatives of statement(), blocks, error text, and the file. A statement that reports nothing of its own is read
// without the state, and what it met is noted once behind it. The file alone knows of lines.
#![tactic(auto)]

ghost use Rattle.std.specs.Prelude.{false, ◌≡◌, ◌^◌, ◌≤◌, ◌<◌, length};
ghost use Rattle.reading.specs.Grammar.{◌or◌};
ghost use Rattle.reading.specs.Rules.{statement, error, eof, source_file};
ghost use Rattle.reading.specs.Table.{max_text, max_scope};
ghost use Rattle.line.specs.Lines.{Numbered, Cut};
ghost use Rattle.line.specs.Marks.{On};
ghost use Rattle.cursor.specs.Text.{cursor};
ghost use Rattle.state.specs.Acts.{Fit, tables};
ghost use Rattle.state.specs.Lent.{seen, Same, DoesIn};
ghost use Rattle.statement.specs.Lined.{Appends, AppendsLeaf, Lined, LinedLeaf};

use cursor::{Cursor, Stop};
use line::Stretch;
use state::{Done, State, Tables};
use table::{Pos, RowIndex};

pub mod brace;
pub mod expected;
pub mod lift;
pub mod quiet;
pub mod row;
pub mod stmt;
pub mod text;

// What stands behind a statement's head: a block or nothing, a block, or an if's branches.
#[derive(Clone, Copy)]
pub enum Body {
    Maybe,
    Block,
    Branches,
}

// A statement or error text.
fn token(s: &[u8], c: Cursor, st: State, left: usize, tables: &mut Tables) -> Done
    requires { Fit 0 s.now c st }
    ensures { DoesIn (statement or error) s.now c st left tables.old tables.new result }
{
    let x = match stmt::statement(s, c, st, left, tables) {
        Err(Stop::Miss(x)) => x,
        done => return done,
    };
    text::error(s, c, x, tables.rows, tables.errors)
}

// Where the rows behind so many begin; the table's end where it has no room for them.
fn part_at(rows: &[u32], count: usize) -> usize
    requires { count < 2 ^ 32 }
    ensures { Cut result count rows.now }
{
    let at = count * table::ROW;
    if rows.len() < at {
        return rows.len();
    }
    at
}

// A token behind so many rows. The answer counts its own rows. The part of the rows goes into a struct of its own; it is split off the slice, since
// no part can be lent out of the struct beside the other fields, and what is written to a part by range in a struct is not known behind it.
fn token_behind(
    s: &[u8],
    at: Pos,
    count: usize,
    st: State,
    left: usize,
    rows: &mut [u32],
    errors: &mut [u32],
    requests: &mut [u32],
) -> Done
    requires { Fit 0 s.now (cursor at.0 count false) st }
    ensures { Appends (statement or error) s.now at.0 count st left (tables rows.old errors.old requests.old) (tables rows.new errors.new requests.new) result }
{
    let k = part_at(rows, count);
    let (_, part) = rows.split_at_mut(k);
    let mut tables = Tables {
        rows: part,
        errors,
        requests,
    };
    token(
        s,
        Cursor {
            at,
            count: RowIndex(0),
            met: false,
        },
        st,
        left,
        &mut tables,
    )
}

// The end of the file behind so many rows.
fn eof_behind(
    s: &[u8],
    at: Pos,
    count: usize,
    st: State,
    rows: &mut [u32],
    errors: &mut [u32],
) -> Done
    requires { Fit 0 s.now (cursor at.0 count false) st }
    ensures { AppendsLeaf eof s.now at.0 count st rows.old rows.new errors.old errors.new result }
{
    let k = part_at(rows, count);
    text::eof(
        s,
        Cursor {
            at,
            count: RowIndex(0),
            met: false,
        },
        st,
        &mut rows[k..],
        errors,
    )
}

// The end of the file, and its line. The rows so far have theirs; the pass over them has come to the stretch `here`.
fn end(
    s: &[u8],
    at: Pos,
    count: usize,
    st: State,
    here: Stretch,
    rows: &mut [u32],
    errors: &mut [u32],
) -> Done
    requires fit { Fit 0 s.now (cursor at.0 count false) st }
    requires on { On s.now here × Numbered s.now rows.old count }
    ensures { LinedLeaf eof s.now at.0 count st rows.old rows.new errors.old errors.new result }
{
    let (d, x) = eof_behind(s, at, count, st, rows, errors)?;
    let n = count + d.count.0;
    line::number(s, rows, count, n, here);
    let end = Cursor {
        count: RowIndex(n),
        met: false,
        ..d
    };
    Ok((end, x))
}

// The whole text, from a state with no errors and no requests. It ends, or goes too deep. The lines of a token's rows are filled in as soon as they stand,
// which is faster than a pass at the end.
pub fn source_file(s: &[u8], st: State, left: usize, tables: &mut Tables) -> Done
    requires { (length s.now ≤ max_text) × (st.scope ≤ max_scope) × (st.errors ≡ 0) × (st.requests ≡ 0) }
    ensures same { Same tables.old tables.new }
    ensures does { Lined source_file s.now (cursor 0 0 false) st left (seen tables.old) (seen tables.new) result }
{
    let mut at = 0;
    let mut count = 0;
    let mut state = st;
    let mut here = line::start(s);
    // A turn goes on from where the reader stopped, with the tables lent for writing: an iterator would hide that, and be no shorter.
    loop {
        match token_behind(
            s,
            Pos(at),
            count,
            state,
            left,
            tables.rows,
            tables.errors,
            tables.requests,
        ) {
            Ok((d, x)) => {
                let n = count + d.count.0;
                here = line::number(s, tables.rows, count, n, here);
                at = d.at.0;
                count = n;
                state = x;
            }
            Err(Stop::Miss(x)) => {
                return end(s, Pos(at), count, x, here, tables.rows, tables.errors);
            }
            Err(Stop::Deep) => return Err(Stop::Deep),
        }
    }
}
