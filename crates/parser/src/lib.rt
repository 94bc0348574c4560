// The call that reads a text into three lent tables.
#![tactic(auto)]

ghost use Rattle.std.specs.Prelude.{Bool, List, ℕ, ◌≤◌};
ghost use Rattle.state.specs.Lent.{seen, Same};
ghost use Rattle.parser.specs.Answers.{call, Meets, Cleared, ReadSo, Settles};

pub mod error;

use error::ReadError;
use reading::{MAX_LEVEL, MAX_SCOPE, MAX_TEXT};
use state::{Done, State, Tables};

// How many records there are of each kind, and the end state.
#[derive(Clone, Copy)]
pub struct Reading {
    pub rows: usize,
    pub errors: usize,
    pub requests: usize,
    pub scope: usize,
    pub swallow: bool,
}

fn clear(tables: &mut Tables)
    ensures { Same tables.old tables.new × Cleared (seen tables.old) (seen tables.new) }
{
    table::zero(tables.rows, 0);
    table::zero(tables.errors, 0);
    table::zero(tables.requests, 0);
}

// Behind the reading: too deep, too little room, or zeros behind the last records.
fn settle(
    text: &[u8],
    scope: usize,
    swallow: bool,
    level: usize,
    done: Done,
    tables: &mut Tables,
) -> Result<Reading, ReadError>
    requires { ReadSo text.now scope swallow level done (seen tables.old) }
    ensures { Settles text.now scope swallow level tables.old tables.new result }
{
    let Ok((c, st)) = done else {
        clear(tables);
        return Err(ReadError::TooDeep(level));
    };
    let n = c.count.0;
    let e = st.errors;
    let q = st.requests;
    if tables.rows.len() / table::ROW < n {
        clear(tables);
        return Err(ReadError::NoRoomForRows(n));
    }
    if tables.errors.len() / table::ERROR < e {
        clear(tables);
        return Err(ReadError::NoRoomForErrors(e));
    }
    if tables.requests.len() / table::REQUEST < q {
        clear(tables);
        return Err(ReadError::NoRoomForRequests(q));
    }
    table::zero(tables.rows, n * table::ROW);
    table::zero(tables.errors, e * table::ERROR);
    table::zero(tables.requests, q * table::REQUEST);
    Ok(Reading {
        rows: n,
        errors: e,
        requests: q,
        scope: st.scope,
        swallow: st.swallow,
    })
}

// Reads a text from a starting state: refusals 1 to 8 in their order, or the reading in the three tables.
pub fn read(
    text: &[u8],
    scope: usize,
    swallow: bool,
    level: usize,
    rows: &mut [u32],
    errors: &mut [u32],
    requests: &mut [u32],
) -> Result<Reading, ReadError>
    ensures { Meets (call text.now scope swallow level rows.old errors.old requests.old) rows.new errors.new requests.new result }
{
    if MAX_TEXT < text.len() {
        return Err(ReadError::TooLong(text.len()));
    }
    if let Some(high) = trivia::first_high(text) {
        return Err(ReadError::HighByte(high.0));
    }
    if MAX_SCOPE < scope {
        return Err(ReadError::ScopeTooLarge(scope));
    }
    if MAX_LEVEL < level {
        return Err(ReadError::LevelTooLarge(level));
    }
    let start = State {
        scope,
        swallow,
        errors: 0,
        requests: 0,
    };
    let mut tables = Tables {
        rows,
        errors,
        requests,
    };
    let done = statement::source_file(text, start, level, &mut tables);
    settle(text, scope, swallow, level, done, &mut tables)
}
