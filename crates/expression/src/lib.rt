// Expressions. `left` is how many more levels may be entered; a bracket beyond that is answered Deep at once.
#![tactic(auto)]

ghost use Rattle.std.specs.Prelude.{◌≡◌, ℕ, ◌+◌, ◌*◌, ◌-◌, ◌^◌, ◌≤◌, ◌<◌, length};
ghost use Rattle.reading.specs.Grammar.{◌▸◌, ◌or◌};
ghost use Rattle.reading.specs.Rules.{arg_list, expression_arg, call_args, call_parens, fn_call, identifier_value, current_pc, closed_expression, expression_parens, interpolated_string_factor, expression_factor_inner, expression_factor, term_operator, expression_term, expression_operator, expression};
ghost use Rattle.cursor.specs.Agree.{Ready, Reads, Leafs};
ghost use Rattle.expression.specs.Level.{operator_of, part_of, chain_of};
ghost use Rattle.expression.specs.Sign.{signed_factor, Missed, Maybe};
ghost use Rattle.expression.specs.Path.{modified_path};

use cursor::{Cursor, Read, Stop};
use lexis::spot::{Line, Lines, Spot, inside};
use lexis::{identifier, mark, operator};
use literal::{numeral, text};
use table::{Kind, RowIndex};

// Parts -----------------------------------------------------------------------

// Which operators stand between the parts of an expression: the ones between terms, or the tighter ones between factors.
#[derive(Clone, Copy)]
enum Level {
    Terms,
    Factors,
}

#[inline(always)]
fn level_operator(s: &[u8], c: Cursor, level: Level, rows: &mut [u32]) -> Read
    requires { Ready 8 s.now c }
    ensures { Leafs (operator_of level) s.now c rows.old rows.new result }
{
    match level {
        Level::Terms => operator::expression_operator(s, c, rows),
        Level::Factors => operator::term_operator(s, c, rows),
    }
}

// A character behind its trivia, or nothing.
fn sign(s: &[u8], c: Cursor, b: u8, rows: &mut [u32]) -> Cursor
    requires { Ready 8 s.now c }
    ensures { Maybe b s.now c rows.old rows.new result }
{
    match mark::spaced(s, c, b, rows) {
        Ok(d) => d,
        Err(Stop::Miss(met)) => Cursor { met, ..c },
        Err(Stop::Deep) => c,
    }
}

// A name with dots, perhaps with `<` or `>` in front.
fn identifier_value(p: Spot<Line>, rows: &mut [u32]) -> Read
    ensures { Leafs identifier_value p.entry.text.now p.entry.start rows.old rows.new result }
{
    let d = modified_path(p, rows)?;
    Ok(mark::around(p.start, p.start.at, d, Kind::Identifier, 0, rows))
}

fn modified_path(p: Spot<Line>, rows: &mut [u32]) -> Read
    ensures { Leafs modified_path p.entry.text.now p.entry.start rows.old rows.new result }
{
    match operator::modifier(p.text, p.start, rows) {
        Ok(d) => identifier::path(Spot::<Line>::new(p.text, d), rows),
        Err(Stop::Miss(met)) => identifier::path(p.after(met), rows),
        Err(Stop::Deep) => Err(Stop::Deep),
    }
}

// `*`
fn current_pc(p: Spot<Line>, rows: &mut [u32]) -> Read
    ensures { Leafs current_pc p.entry.text.now p.entry.start rows.old rows.new result }
{
    let d = mark::char(p, b'*', rows)?;
    Ok(mark::around(p.start, p.start.at, d, Kind::CurrentPc, 0, rows))
}

fn interpolated_string_factor(p: Spot<Line>, rows: &mut [u32]) -> Read
    ensures { Leafs interpolated_string_factor p.entry.text.now p.entry.start rows.old rows.new result }
{
    let d = text::string(p, true, rows)?;
    Ok(mark::around(p.start, p.start.at, d, Kind::StringFactor, 0, rows))
}

// The cycle ---------------------------------------------------------------------

// Terms with `+`, `==` and the like between them, folded to the left.
#[cycle(expression)]
pub fn expression(p: Spot<Line>, left: usize, rows: &mut [u32]) -> Read
    ensures { Reads expression p.entry.text.now p.entry.start left rows.old rows.new result }
{
    chain(p, Level::Terms, left, rows)
}

// Factors with `*` and the like between them, folded to the left.
#[cycle(expression)]
pub fn expression_term(p: Spot<Line>, left: usize, rows: &mut [u32]) -> Read
    ensures { Reads expression_term p.entry.text.now p.entry.start left rows.old rows.new result }
{
    chain(p, Level::Factors, left, rows)
}

// Parts of a level with its operators between them. Written out in the two functions above, so that neither asks for the level as it runs.
#[cycle(expression)]
#[inline(always)]
fn chain(p: Spot<Line>, level: Level, left: usize, rows: &mut [u32]) -> Read
    ensures { Reads (chain_of level) p.entry.text.now p.entry.start left rows.old rows.new result }
{
    let start = Cursor {
        at: p.end.at,
        ..p.start
    };
    let mut d = part(p, level, left, rows)?;
    // A turn goes on from where the reader stopped, with the tables lent for writing: an iterator would hide that, and be no shorter.
    loop {
        match next_part(p.text, d, level, left, rows) {
            Ok(e) => d = mark::around(start, p.end.at, e, Kind::Binary, 0, rows),
            Err(Stop::Miss(met)) => return Ok(Cursor { met, ..d }),
            Err(Stop::Deep) => return Err(Stop::Deep),
        }
    }
}

// A term or a factor.
#[cycle(expression)]
#[inline(always)]
fn part(p: Spot<Line>, level: Level, left: usize, rows: &mut [u32]) -> Read
    ensures { Reads (part_of level) p.entry.text.now p.entry.start left rows.old rows.new result }
{
    match level {
        Level::Terms => expression_term(p, left, rows),
        Level::Factors => expression_factor(p, left, rows),
    }
}

// An operator and a part.
#[cycle(expression)]
#[inline(always)]
fn next_part(s: &[u8], c: Cursor, level: Level, left: usize, rows: &mut [u32]) -> Read
    requires { Ready 8 s.now c }
    ensures { Reads (operator_of level ▸ part_of level) s.now c left rows.old rows.new result }
{
    let d = level_operator(s, c, level, rows)?;
    part(Spot::<Line>::new(s, d), level, left, rows)
}

// A factor. It is tried again, behind signs, only where it does not fit as it is. Written out where it is called, like the methods of a spot.
#[cycle(expression)]
#[inline(always)]
pub fn expression_factor(p: Spot<Line>, left: usize, rows: &mut [u32]) -> Read
    ensures { Reads expression_factor p.entry.text.now p.entry.start left rows.old rows.new result }
{
    match expression_factor_inner(inside(p), left, rows) {
        Ok(d) => Ok(mark::around(p.start, p.end.at, d, Kind::Factor, 0, rows)),
        Err(Stop::Miss(met)) => signed(p.after(met), left, rows),
        Err(Stop::Deep) => Err(Stop::Deep),
    }
}

// A factor with `!`, `-` or both in front.
#[cycle(expression)]
fn signed(p: Spot<Line>, left: usize, rows: &mut [u32]) -> Read
    requires { Missed p.text.now p.end left }
    ensures { Reads signed_factor p.entry.text.now p.entry.start left rows.old rows.new result }
{
    let c = p.start;
    let start = Cursor {
        at: p.end.at,
        met: p.end.met,
        ..c
    };
    let i = sign(p.text, start, b'!', rows);
    let j = sign(p.text, i, b'-', rows);
    if j.count.0 == c.count.0 {
        return Err(Stop::Miss(j.met));
    }
    let d = expression_factor_inner(Spot::<Line>::new(p.text, j), left, rows)?;
    let flags = i.count.0 - c.count.0 + 2 * (j.count.0 - i.count.0);
    Ok(mark::around(c, p.end.at, d, Kind::Factor, flags, rows))
}

// The alternatives in the Rust's order, each behind the trivia before `p`. A call skips its own, since its name may come after line ends.
#[cycle(expression)]
fn expression_factor_inner(p: Spot<Line>, left: usize, rows: &mut [u32]) -> Read
    ensures { Reads expression_factor_inner p.entry.text.now p.entry.start left rows.old rows.new result }
{
    let met = match numeral::number(p, rows) {
        Err(Stop::Miss(met)) => met,
        read => return read,
    };
    let met = match fn_call(p.text, Cursor { met, ..p.start }, left, rows) {
        Err(Stop::Miss(met)) => met,
        read => return read,
    };
    others(p.after(met), left, rows)
}

// The alternatives behind a number and a call.
#[cycle(expression)]
fn others(p: Spot<Line>, left: usize, rows: &mut [u32]) -> Read
    ensures { Reads (identifier_value or current_pc or expression_parens or interpolated_string_factor) p.entry.text.now p.entry.start left rows.old rows.new result }
{
    let met = match identifier_value(p, rows) {
        Err(Stop::Miss(met)) => met,
        read => return read,
    };
    let q = p.after(met);
    let met = match current_pc(q, rows) {
        Err(Stop::Miss(met)) => met,
        read => return read,
    };
    let r = q.after(met);
    let met = match expression_parens(r, left, rows) {
        Err(Stop::Miss(met)) => met,
        read => return read,
    };
    interpolated_string_factor(r.after(met), rows)
}

// `(`, an expression, `)`.
#[cycle(expression)]
fn expression_parens(p: Spot<Line>, left: usize, rows: &mut [u32]) -> Read
    ensures { Reads expression_parens p.entry.text.now p.entry.start left rows.old rows.new result }
{
    let d = mark::char(p, b'(', rows)?;
    if left == 0 {
        return Err(Stop::Deep);
    }
    let e = closed(p.text, d, left - 1, rows)?;
    Ok(mark::around(p.start, p.start.at, e, Kind::Parens, 0, rows))
}

// An expression and `)`, behind a `(`.
#[cycle(expression)]
fn closed(s: &[u8], c: Cursor, left: usize, rows: &mut [u32]) -> Read
    requires ready { Ready 8 s.now c }
    requires le_at { 1 ≤ c.at.0 }
    ensures { Reads closed_expression s.now c left rows.old rows.new result }
{
    let d = expression(Spot::<Line>::new(s, c), left, rows)?;
    mark::spaced(s, d, b')', rows)
}

// A name and its parentheses.
#[cycle(expression)]
fn fn_call(s: &[u8], c: Cursor, left: usize, rows: &mut [u32]) -> Read
    requires { Ready 8 s.now c }
    ensures { Reads fn_call s.now c left rows.old rows.new result }
{
    let d = identifier::name(Spot::<Lines>::new(s, c), rows)?;
    let e = call_parens(s, d, left, rows)?;
    Ok(mark::around(c, c.at, e, Kind::Call, 0, rows))
}

// `(`, arguments, `)`.
#[cycle(expression)]
pub fn call_parens(s: &[u8], c: Cursor, left: usize, rows: &mut [u32]) -> Read
    requires { Ready 8 s.now c }
    ensures { Reads call_parens s.now c left rows.old rows.new result }
{
    let d = mark::spaced(s, c, b'(', rows)?;
    if left == 0 {
        return Err(Stop::Deep);
    }
    call_args(s, d, left - 1, rows)
}

// Arguments, or none, and `)`.
#[cycle(expression)]
fn call_args(s: &[u8], c: Cursor, left: usize, rows: &mut [u32]) -> Read
    requires ready { Ready 8 s.now c }
    requires le_at { 1 ≤ c.at.0 }
    ensures { Reads call_args s.now c left rows.old rows.new result }
{
    match arguments(s, c, left, rows) {
        Ok(d) => mark::spaced(s, d, b')', rows),
        Err(Stop::Miss(met)) => mark::spaced(s, Cursor { met, ..c }, b')', rows),
        Err(Stop::Deep) => Err(Stop::Deep),
    }
}

// Arguments with commas between them. The last one, which the Rust tries with a comma first, is read once.
#[cycle(expression)]
pub fn arguments(s: &[u8], c: Cursor, left: usize, rows: &mut [u32]) -> Read
    requires ready { Ready 8 s.now c }
    requires le_at { 1 ≤ c.at.0 }
    ensures { Reads (arg_list expression_arg) s.now c left rows.old rows.new result }
{
    let mut next = c;
    // As in `chain`.
    loop {
        let last = argument(s, next, left, rows)?;
        match mark::spaced(s, last, b',', rows) {
            Ok(e) => next = e,
            Err(Stop::Miss(met)) => return Ok(Cursor { met, ..last }),
            Err(Stop::Deep) => return Err(Stop::Deep),
        }
    }
}

// An argument: its row has the argument's places, with its trivia.
#[cycle(expression)]
fn argument(s: &[u8], c: Cursor, left: usize, rows: &mut [u32]) -> Read
    requires ready { Ready 8 s.now c }
    requires le_at { 1 ≤ c.at.0 }
    ensures { Reads expression_arg s.now c left rows.old rows.new result }
{
    let p = Spot::<Line>::new(s, c);
    let d = expression(inside(p), left, rows)?;
    table::place_row(rows, RowIndex(d.count.0 - 1), c.at, p.end.at, d.at);
    Ok(d)
}
