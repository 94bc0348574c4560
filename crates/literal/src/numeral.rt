// Numbers: `$` and hexadecimal digits, `%` and binary digits, decimal digits, `true`, `false`.
ghost use Rattle.std.specs.Prelude.{true, [], ◌∷◌, ◌≡◌, ◌≤◌, length, drop};
ghost use Rattle.reading.specs.Byte.{begins};
ghost use Rattle.reading.specs.Rules.{number};
ghost use Rattle.cursor.specs.Agree.{Leafs};
ghost use Rattle.lexis.specs.Finds.{Finds};
ghost use Rattle.trivia.specs.Class.{bit_of};
ghost use Rattle.literal.specs.Parts.{radix, numeral, decimals, value};
ghost use Rattle.number.specs.Answers.{type_number};

use cursor::{Read, Skip};
use lexis::mark;
use lexis::spot::{Line, Spot};
use number::NumberType;
use reading::HasNumber;
use table::{Kind, Pos};
use trivia::class::Class;

// The mark `$` or `%`, which stands behind the trivia, and digits behind trivia of their own.
fn radix(p: Spot<Line>, mark: u8, ty: NumberType, class: Class, rows: &mut [u32]) -> Read
    requires { begins (mark ∷ []) (drop p.end.at.0 p.text.now) ≡ true }
    ensures { Leafs (radix mark (type_number ty) (bit_of class)) p.entry.text.now p.entry.start rows.old rows.new result }
{
    let high = Pos(p.end.at.0 + 1);
    let d = mark::row(
        p.start,
        p.end,
        high,
        Kind::NumberType,
        ty.number() as usize,
        rows,
    )?;
    mark::run(
        Spot::<Line>::new(p.text, d),
        class,
        true,
        Kind::NumberText,
        rows,
    )
}

// Where digits, `true` or `false` end. No end of a word is asked for.
fn numeral(s: &[u8], at: Pos) -> Option<Pos>
    requires { at.0 ≤ length s.now }
    ensures { Finds numeral s.now at.0 result }
{
    let i = at.0;
    let e = trivia::digits_end(s, at);
    if i < e.0 {
        return Some(e);
    }
    if word::begins(s, at, b"true") {
        return Some(Pos(i + 4));
    }
    if word::begins(s, at, b"false") {
        return Some(Pos(i + 5));
    }
    None
}

// An empty type where the number's reading began, and the text.
fn decimal(p: Spot<Line>, rows: &mut [u32]) -> Read
    ensures { Leafs decimals p.entry.text.now p.entry.start rows.old rows.new result }
{
    let Some(high) = numeral(p.text, p.end.at) else {
        return p.miss();
    };
    let c = p.start;
    let start = Skip {
        at: c.at,
        met: c.met,
    };
    let d = mark::row(
        c,
        start,
        c.at,
        Kind::NumberType,
        NumberType::Dec.number() as usize,
        rows,
    )?;
    mark::row(d, p.end, high, Kind::NumberText, 0, rows)
}

// The type and the text. The byte behind the trivia says which alternative it is; all others miss there.
fn value(p: Spot<Line>, rows: &mut [u32]) -> Read
    ensures { Leafs value p.entry.text.now p.entry.start rows.old rows.new result }
{
    if p.is(b'$') {
        return radix(p, b'$', NumberType::Hex, Class::HexDigit, rows);
    }
    let q = p.again();
    if q.is(b'%') {
        return radix(q, b'%', NumberType::Bin, Class::BinaryDigit, rows);
    }
    decimal(q, rows)
}

// A number: the row around both has no trivia of its own.
pub fn number(p: Spot<Line>, rows: &mut [u32]) -> Read
    ensures { Leafs number p.entry.text.now p.entry.start rows.old rows.new result }
{
    let d = value(p, rows)?;
    Ok(mark::around(p.start, p.start.at, d, Kind::Number, 0, rows))
}
