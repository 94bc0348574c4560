// Operands. The forms in the Rust's order: immediate, `( )` then suffix, `( suffix )`, plain. What stands behind `(` is read once for all of them.
#![tactic(auto)]

ghost use Rattle.std.specs.Prelude.{true, [], ◌∷◌, ◌≡◌, ℕ, ◌<◌, ◌^◌, drop};
ghost use Rattle.reading.specs.Byte.{begins};
ghost use Rattle.reading.specs.Grammar.{bracket};
ghost use Rattle.reading.specs.Rules.{char, trivia, expression, am_imm, am_abs, operand};
ghost use Rattle.cursor.specs.Agree.{Ready, Reads, Leafs};
ghost use Rattle.operand.specs.Parts.{addressed, closing_of};

use AddressingMode::{AbsoluteOrZp, Immediate, Indirect, OuterIndirect};
use cursor::{Cursor, Read, Stop};
use lexis::mark;
use lexis::spot::{Line, Spot};
use table::Kind;

pub mod config_map;

// The numbers are the details of an operand's row. 3 is the mode without an operand.
enum AddressingMode {
    AbsoluteOrZp = 1,
    Immediate = 2,
    Indirect = 4,
    OuterIndirect = 5,
}

// An operand. All forms share the trivia before it.
pub fn operand(p: Spot<Line>, left: usize, rows: &mut [u32]) -> Read
    ensures { Reads operand p.entry.text.now p.entry.start left rows.old rows.new result }
{
    let met = match am_imm(p, left, rows) {
        Err(Stop::Miss(met)) => met,
        read => return read,
    };
    let q = p.after(met);
    if q.is(b'(') {
        return in_parens(q, left, rows);
    }
    am_abs(q, left, rows)
}

// `#` and an expression.
fn am_imm(p: Spot<Line>, left: usize, rows: &mut [u32]) -> Read
    ensures { Reads am_imm p.entry.text.now p.entry.start left rows.old rows.new result }
{
    let d = mark::char(p, b'#', rows)?;
    let e = expression::expression(Spot::<Line>::new(p.text, d), left, rows)?;
    Ok(mark::around(
        p.start,
        p.end.at,
        e,
        Kind::Operand,
        Immediate as usize,
        rows,
    ))
}

// An expression, and a suffix or none.
fn am_abs(p: Spot<Line>, left: usize, rows: &mut [u32]) -> Read
    ensures { Reads am_abs p.entry.text.now p.entry.start left rows.old rows.new result }
{
    let d = expression::expression(p, left, rows)?;
    let e = lexis::operator::optional_suffix(p.text, d, rows)?;
    Ok(mark::around(
        p.start,
        p.end.at,
        e,
        Kind::Operand,
        AbsoluteOrZp as usize,
        rows,
    ))
}

// Where `(` stands: am_ind, am_outer_ind and am_abs. The three begin with the same bytes, and where `)` does not follow the expression,
// am_abs misses too.
fn in_parens(p: Spot<Line>, left: usize, rows: &mut [u32]) -> Read
    requires { begins (40 ∷ []) (drop p.end.at.0 p.text.now) ≡ true }
    ensures { Reads addressed p.entry.text.now p.entry.start left rows.old rows.new result }
{
    let d = opened(p, left, rows)?;
    match closing(p.text, d, false, rows) {
        Ok(e) => {
            let x = lexis::operator::optional_suffix(p.text, e, rows)?;
            Ok(mark::around(
                p.start,
                p.end.at,
                x,
                Kind::Operand,
                OuterIndirect as usize,
                rows,
            ))
        }
        Err(Stop::Miss(met)) => {
            let x = closing(p.text, Cursor { met, ..d }, true, rows)?;
            Ok(mark::around(p.start, p.end.at, x, Kind::Operand, Indirect as usize, rows))
        }
        Err(Stop::Deep) => Err(Stop::Deep),
    }
}

// `(` and an expression, one level deeper.
fn opened(p: Spot<Line>, left: usize, rows: &mut [u32]) -> Read
    ensures { Reads (bracket trivia 40 expression) p.entry.text.now p.entry.start left rows.old rows.new result }
{
    let d = mark::char(p, b'(', rows)?;
    if left == 0 {
        return Err(Stop::Deep);
    }
    expression::expression(Spot::<Line>::new(p.text, d), left - 1, rows)
}

// `)`.
fn close(s: &[u8], c: Cursor, rows: &mut [u32]) -> Read
    requires { Ready 8 s.now c }
    ensures { Leafs (char ")") s.now c rows.old rows.new result }
{
    mark::spaced(s, c, b')', rows)
}

// `)`, where a suffix may stand before it or not.
fn closing(s: &[u8], c: Cursor, suffix: bool, rows: &mut [u32]) -> Read
    requires { Ready 8 s.now c }
    ensures { Leafs (closing_of suffix) s.now c rows.old rows.new result }
{
    if suffix {
        let d = lexis::operator::optional_suffix(s, c, rows)?;
        return close(s, d, rows);
    }
    close(s, c, rows)
}
