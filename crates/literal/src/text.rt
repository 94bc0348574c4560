// Strings: pieces, and in an interpolated one paths in braces.
ghost use Rattle.reading.specs.Grammar.{many0};
ghost use Rattle.reading.specs.Rules.{interpolation};
ghost use Rattle.cursor.specs.Agree.{Ready, Leafs};
ghost use Rattle.literal.specs.Parts.{item_of, string_of};

use cursor::{Cursor, Read, Stop};
use lexis::spot::{Line, Nothing, Spot};
use lexis::{identifier, mark};
use table::{Kind, Pos};
use trivia::class::Class;

// A path in braces: only the path has a row.
fn interpolation(s: &[u8], c: Cursor, rows: &mut [u32]) -> Read
    requires { Ready 8 s.now c }
    ensures { Leafs interpolation s.now c rows.old rows.new result }
{
    let low = c.at;
    let met = c.met;
    if !trivia::byte_is(s, low, b'{') {
        return Err(Stop::Miss(met));
    }
    let at = Pos(low.0 + 1);
    let count = c.count;
    let d = identifier::path(Spot::<Nothing>::new(s, Cursor { at, count, met }), rows)?;
    if !trivia::byte_is(s, d.at, b'}') {
        return Err(Stop::Miss(d.met));
    }
    Ok(Cursor {
        at: Pos(d.at.0 + 1),
        ..d
    })
}

// A piece, or in an interpolated string a path in braces.
fn item(s: &[u8], c: Cursor, interpolated: bool, rows: &mut [u32]) -> Read
    requires { Ready 8 s.now c }
    ensures { Leafs (item_of interpolated) s.now c rows.old rows.new result }
{
    let m = match mark::run(
        Spot::<Nothing>::new(s, c),
        Class::EndsPiece,
        false,
        Kind::Piece,
        rows,
    ) {
        Err(Stop::Miss(m)) => m,
        read => return read,
    };
    if !interpolated {
        return Err(Stop::Miss(m));
    }
    interpolation(s, Cursor { met: m, ..c }, rows)
}

// All items.
fn items(s: &[u8], c: Cursor, interpolated: bool, rows: &mut [u32]) -> Read
    requires { Ready 8 s.now c }
    ensures { Leafs (many0 (item_of interpolated)) s.now c rows.old rows.new result }
{
    let mut d = c;
    // A turn goes on from where the reader stopped, with the tables lent for writing: an iterator would hide that, and be no shorter.
    loop {
        match item(s, d, interpolated, rows) {
            Ok(e) => d = e,
            Err(Stop::Miss(m)) => {
                return Ok(Cursor { met: m, ..d });
            }
            Err(Stop::Deep) => return Err(Stop::Deep),
        }
    }
}

// A string, from its opening quote to its closing one, which has no row.
pub fn string(p: Spot<Line>, interpolated: bool, rows: &mut [u32]) -> Read
    ensures { Leafs (string_of interpolated) p.entry.text.now p.entry.start rows.old rows.new result }
{
    let d = mark::char(p, b'"', rows)?;
    let e = items(p.text, d, interpolated, rows)?;
    if !trivia::byte_is(p.text, e.at, b'"') {
        return Err(Stop::Miss(e.met));
    }
    let end = Cursor {
        at: Pos(e.at.0 + 1),
        ..e
    };
    Ok(mark::around(p.start, p.end.at, end, Kind::String, 0, rows))
}
