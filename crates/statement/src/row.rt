// The row around a statement.
ghost use Rattle.std.specs.Prelude.{◌+◌, ◌^◌, ◌<◌};
ghost use Rattle.lexis.specs.Around.{Spans};
ghost use Rattle.statement.specs.Shapes.{Closed, Imported};

use cursor::{Cursor, Skip};
use lexis::mark;
use reading::HasNumber;
use state::{Done, State};
use table::{Kind, Pos};

// From c to d, with a body from k on. A scope gets its number now.
pub fn close<K: HasNumber + Copy>(
    c: Cursor,
    k: Skip,
    d: Cursor,
    st: State,
    kind: K,
    scope: bool,
    rows: &mut [u32],
) -> Done
    requires { Spans c k.at.0 d × (st.scope + 1 < 2 ^ 32) }
    ensures { Closed scope (K.number kind) c k d st rows.old rows.new result }
{
    if scope {
        let number = st.scope + 1;
        let end = mark::around(c, k.at, d, kind, number, rows);
        return Ok((
            Cursor { met: false, ..end },
            State {
                scope: number,
                ..st
            },
        ));
    }
    let end = mark::around(c, k.at, d, kind, 0, rows);
    Ok((Cursor { met: false, ..end }, st))
}

// An import's row, number and request: the file name stands from `low` to `high`.
pub fn import(
    c: Cursor,
    k: Skip,
    d: Cursor,
    st: State,
    low: Pos,
    high: Pos,
    rows: &mut [u32],
    requests: &mut [u32],
) -> Done
    requires spans { Spans c k.at.0 d × (st.scope + 1 < 2 ^ 32) }
    requires words { (low.0 < 2 ^ 32) × (high.0 < 2 ^ 32) × (st.requests < 2 ^ 32) }
    ensures { Imported low.0 high.0 c k d st rows.old rows.new requests.old requests.new result }
{
    let (e, x) = close(c, k, d, st, Kind::Import, true, rows)?;
    let y = state::request(x, low, high, requests);
    Ok((e, y))
}
