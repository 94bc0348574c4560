// What stands behind trivia and has one row.
ghost use Rattle.std.specs.Prelude.{◌^◌, ◌<◌};
ghost use Rattle.reading.specs.Byte.{is};
ghost use Rattle.reading.specs.Grammar.{node, leaf, one, run0, run1, tag_no_case, ◌▸◌, always};
ghost use Rattle.reading.specs.Kind.{charᵏ};
ghost use Rattle.trivia.specs.Class.{bit_of, among, starts, goes};
ghost use Rattle.cursor.specs.Agree.{Ready, Leafs};
ghost use Rattle.lexis.specs.Spaced.{spaced};
ghost use Rattle.lexis.specs.Around.{Spans, Finished};
ghost use Rattle.lexis.specs.Behind.{Rowed};
ghost use Rattle.lexis.specs.Finds.{Finds};

use crate::spot::{Gap, Line, Spot};
use cursor::{Cursor, Read, Skip};
use reading::HasNumber;
use table::{Kind, Pos, RowIndex};
use trivia::class::Class;

// The row around what was read from `c` to `d`, whose body begins at `low`; the cursor behind it.
pub fn around<K: HasNumber + Copy>(
    c: Cursor,
    low: Pos,
    d: Cursor,
    kind: K,
    detail: usize,
    rows: &mut [u32],
) -> Cursor
    requires spans { Spans c low.0 d }
    requires detail_bound { detail < 2 ^ 32 }
    ensures { Finished (K.number kind) detail c low.0 d rows.old rows.new result }
{
    let n = d.count.0;
    table::push_row(
        rows,
        d.count,
        kind,
        n + 1 - c.count.0,
        c.at,
        low,
        d.at,
        detail,
    );
    Cursor {
        count: RowIndex(n + 1),
        ..d
    }
}

// The row of what stands from `k.at` to `high`.
pub fn row<K: HasNumber + Copy>(
    c: Cursor,
    k: Skip,
    high: Pos,
    kind: K,
    detail: usize,
    rows: &mut [u32],
) -> Read
    requires { (c.count.0 < 2 ^ 32) × (c.at.0 < 2 ^ 32) × (k.at.0 < 2 ^ 32) × (high.0 < 2 ^ 32) × (detail < 2 ^ 32) }
    ensures { Rowed (K.number kind) detail c k high.0 rows.old rows.new result }
{
    let n = c.count.0;
    table::push_row(rows, RowIndex(n), kind, 1, c.at, k.at, high, detail);
    Ok(Cursor {
        at: high,
        count: RowIndex(n + 1),
        met: k.met,
    })
}

// The byte `b`.
pub fn char<G: Gap>(p: Spot<G>, b: u8, rows: &mut [u32]) -> Read
    ensures { Leafs (node charᵏ (always b) G.rule (leaf (one (is b)))) p.entry.text.now p.entry.start rows.old rows.new result }
{
    if p.is(b) {
        let high = Pos(p.end.at.0 + 1);
        return row(p.start, p.end, high, Kind::Char, b as usize, rows);
    }
    p.miss()
}

// The byte `b` behind its trivia.
pub fn spaced(s: &[u8], c: Cursor, b: u8, rows: &mut [u32]) -> Read
    requires { Ready 8 s.now c }
    ensures { Leafs (spaced b) s.now c rows.old rows.new result }
{
    char(Spot::<Line>::new(s, c), b, rows)
}

// Letters and digits, the first no digit, and among them the byte `also`: `_` in a name, `-` in a config key.
pub fn name_end(s: &[u8], at: Pos, also: u8) -> Option<Pos>
    ensures { Finds (leaf (one (starts also)) ▸ leaf (run0 (goes also))) s.now at.0 result }
{
    let e = trivia::name_end(s, at, also);
    if e.0 == at.0 {
        return None;
    }
    Some(e)
}

// The same with its row: a name, a config key.
pub fn name<G: Gap, K: HasNumber + Copy>(p: Spot<G>, also: u8, kind: K, rows: &mut [u32]) -> Read
    ensures { Leafs (node (K.number kind) (always 0) G.rule (leaf (one (starts also)) ▸ leaf (run0 (goes also)))) p.entry.text.now p.entry.start rows.old rows.new result }
{
    let Some(high) = name_end(p.text, p.end.at, also) else {
        return p.miss();
    };
    row(p.start, p.end, high, kind, 0, rows)
}

// A run of one byte at least, of the bytes of a class (digits) or of those that are not of it (a string's piece, error text).
pub fn run<G: Gap, K: HasNumber + Copy>(
    p: Spot<G>,
    class: Class,
    inside: bool,
    kind: K,
    rows: &mut [u32],
) -> Read
    ensures { Leafs (node (K.number kind) (always 0) G.rule (leaf (run1 (among (bit_of class) inside)))) p.entry.text.now p.entry.start rows.old rows.new result }
{
    let low = p.end.at;
    let high = trivia::run_end(p.text, low, class, inside);
    if high.0 <= low.0 {
        return p.miss();
    }
    row(p.start, p.end, high, kind, 0, rows)
}

// A word in any letter case. It is given in lower case.
pub fn word<G: Gap, K: HasNumber + Copy>(
    p: Spot<G>,
    word: &[u8],
    kind: K,
    detail: usize,
    rows: &mut [u32],
) -> Read
    requires { detail < 2 ^ 32 }
    ensures { Leafs (node (K.number kind) (always detail) G.rule (leaf (tag_no_case word.now))) p.entry.text.now p.entry.start rows.old rows.new result }
{
    let low = p.end.at;
    if word::begins(p.text, low, word) {
        let high = Pos(low.0 + word.len());
        return row(p.start, p.end, high, kind, detail, rows);
    }
    p.miss()
}
