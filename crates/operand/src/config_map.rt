// Config maps: keys and values in braces. Line ends may stand before a key, `=`, a value and a brace.
ghost use Rattle.std.specs.Prelude.{ℕ, ◌≤◌};
ghost use Rattle.reading.specs.Byte.{is};
ghost use Rattle.reading.specs.Grammar.{one, empty, ◌▸◌, leaf, node, many0, over, always};
ghost use Rattle.reading.specs.Kind.{charᵏ, wordᵏ, expressionᵏ, config_valueᵏ};
ghost use Rattle.reading.specs.Rules.{mws, mchar, multiline_trivia, expression, config_key, config_value, kvp, config_map};
ghost use Rattle.cursor.specs.Agree.{Ready, Reads, Leafs};

use cursor::{Cursor, Read, Stop};
use lexis::mark;
use lexis::spot::{Line, Lines, Spot};
use table::Kind;

// `{`, which takes a level, pairs and `}`: a block, and the token around it.
#[cycle(config_map)]
pub fn config_map(s: &[u8], c: Cursor, left: usize, rows: &mut [u32]) -> Read
    requires { Ready 8 s.now c }
    ensures { Reads config_map s.now c left rows.old rows.new result }
{
    let p = Spot::<Lines>::new(s, c);
    let d = mark::char(p, b'{', rows)?;
    if left == 0 {
        return Err(Stop::Deep);
    }
    let e = kvps(s, d, left - 1, rows)?;
    let y = mark::around(c, p.end.at, e, Kind::Block, 0, rows);
    Ok(mark::around(c, p.end.at, y, Kind::Config, 0, rows))
}

// Pairs, and the closing brace.
#[cycle(config_map)]
fn kvps(s: &[u8], c: Cursor, left: usize, rows: &mut [u32]) -> Read
    requires { Ready 8 s.now c }
    ensures { Reads (many0 kvp ▸ mchar "}") s.now c left rows.old rows.new result }
{
    let mut d = c;
    // A turn goes on from where the reader stopped, with the tables lent for writing: an iterator would hide that, and be no shorter.
    loop {
        match kvp(s, d, left, rows) {
            Ok(e) => d = e,
            Err(Stop::Miss(met)) => return mchar(s, Cursor { met, ..d }, b'}', rows),
            Err(Stop::Deep) => return Err(Stop::Deep),
        }
    }
}

// A key, `=` and a value.
#[cycle(config_map)]
pub fn kvp(s: &[u8], c: Cursor, left: usize, rows: &mut [u32]) -> Read
    requires { Ready 8 s.now c }
    ensures { Reads kvp s.now c left rows.old rows.new result }
{
    let p = Spot::<Lines>::new(s, c);
    let d = config_key(p, rows)?;
    let e = assigned(s, d, left, rows)?;
    Ok(mark::around(c, p.end.at, e, Kind::ConfigPair, 0, rows))
}

// Letters, digits and `-`, the first no digit.
fn config_key(p: Spot<Lines>, rows: &mut [u32]) -> Read
    ensures { Leafs (mws wordᵏ 0 config_key) p.entry.text.now p.entry.start rows.old rows.new result }
{
    mark::name(p, b'-', Kind::Word, rows)
}

// A byte behind trivia with line ends.
fn mchar(s: &[u8], c: Cursor, b: u8, rows: &mut [u32]) -> Read
    requires { Ready 8 s.now c }
    ensures { Leafs (node charᵏ (always b) multiline_trivia (leaf (one (is b)))) s.now c rows.old rows.new result }
{
    mark::char(Spot::<Lines>::new(s, c), b, rows)
}

// `=` and a value.
#[cycle(config_map)]
fn assigned(s: &[u8], c: Cursor, left: usize, rows: &mut [u32]) -> Read
    requires { Ready 8 s.now c }
    ensures { Reads (mchar "=" ▸ mws config_valueᵏ 0 config_value) s.now c left rows.old rows.new result }
{
    let d = mchar(s, c, b'=', rows)?;
    value(s, d, left, rows)
}

// A value with its row.
#[cycle(config_map)]
fn value(s: &[u8], c: Cursor, left: usize, rows: &mut [u32]) -> Read
    requires ready { Ready 8 s.now c }
    requires le_at { 1 ≤ c.at.0 }
    ensures { Reads (mws config_valueᵏ 0 config_value) s.now c left rows.old rows.new result }
{
    let k = trivia::multiline_trivia(s, c.at, c.met);
    let start = Cursor {
        at: k.at,
        met: k.met,
        ..c
    };
    let d = config_value(s, start, left, rows)?;
    Ok(mark::around(c, k.at, d, Kind::ConfigValue, 0, rows))
}

// A map, or an expression.
#[cycle(config_map)]
fn config_value(s: &[u8], c: Cursor, left: usize, rows: &mut [u32]) -> Read
    requires ready { Ready 8 s.now c }
    requires le_at { 1 ≤ c.at.0 }
    ensures { Reads config_value s.now c left rows.old rows.new result }
{
    let met = match config_map(s, c, left, rows) {
        Err(Stop::Miss(met)) => met,
        read => return read,
    };
    expression_value(s, Cursor { met, ..c }, left, rows)
}

// An expression as a token.
fn expression_value(s: &[u8], c: Cursor, left: usize, rows: &mut [u32]) -> Read
    requires { Ready 8 s.now c }
    ensures { Reads (over expressionᵏ 0 expression empty) s.now c left rows.old rows.new result }
{
    let p = Spot::<Line>::new(s, c);
    let d = expression::expression(p, left, rows)?;
    Ok(mark::around(c, p.end.at, d, Kind::Expression, 0, rows))
}
