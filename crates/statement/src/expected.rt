// Statements that report what is missing: a definition without its map, data without its values.
ghost use Rattle.std.specs.Prelude.{false, Err, ◌≡◌, ◌^◌, ◌≤◌, ◌<◌};
ghost use Rattle.reading.specs.Grammar.{expect};
ghost use Rattle.reading.specs.Rules.{multiline_trivia, config_map, config_definition, expression_arg_list, data'};
ghost use Rattle.cursor.specs.declared.Stop.TheVariants.{Miss};
ghost use Rattle.state.specs.Acts.{Fit, Tells};
ghost use Rattle.state.specs.Codes.{code_number};
ghost use Rattle.statement.specs.Shapes.{Expected};

use crate::lift::{clear, lifted};
use crate::row;
use cursor::{Cursor, Stop};
use head::directive;
use lexis::spot::{Lines, Spot};
use operand::config_map;
use state::{Done, ErrorCode, State};
use table::Kind;

// What should stand at `c` has answered `done`. If it is missing, that is reported and reading goes on there.
fn expected(c: Cursor, done: Done, code: ErrorCode, errors: &mut [u32]) -> Done
    requires words { c.at.0 < 2 ^ 32 }
    requires room { (x : _) → done ≡ Err (Miss x) → x.errors < 2 ^ 32 }
    ensures { Expected (code_number code) c done errors.old errors.new result }
{
    let x = match done {
        Err(Stop::Miss(x)) => x,
        done => return done,
    };
    let y = state::report(x, code, c.at, c.at, errors);
    Ok((Cursor { met: false, ..c }, y))
}

// A config map, or a report where it would begin.
fn map(s: &[u8], c: Cursor, st: State, left: usize, rows: &mut [u32], errors: &mut [u32]) -> Done
    requires { Fit 0 s.now c st }
    ensures { Tells (expect 4 config_map) s.now c st left rows.old rows.new errors.old errors.new result }
{
    let read = config_map::config_map(s, Cursor { met: false, ..c }, left, rows);
    let done = lifted(s, st, read, errors);
    expected(c, done, ErrorCode::ExpectedConfigurationObject, errors)
}

pub fn definition(
    mut p: Spot<Lines>,
    st: State,
    left: usize,
    rows: &mut [u32],
    errors: &mut [u32],
) -> Done
    requires { Fit 0 p.text.now p.start st }
    ensures { Tells config_definition p.entry.text.now p.entry.start st left rows.old rows.new errors.old errors.new result }
{
    let (s, c) = (p.text, p.start);
    clear(&mut p);
    let read = head::definition::define_head(p, rows);
    let (d, x) = lifted(s, st, read, errors)?;
    let (e, y) = map(s, d, x, left, rows, errors)?;
    row::close(c, p.end, e, y, Kind::Definition, false, rows)
}

// Values, or a report.
fn values(s: &[u8], c: Cursor, st: State, left: usize, rows: &mut [u32], errors: &mut [u32]) -> Done
    requires fit { Fit 0 s.now c st }
    requires behind { 1 ≤ c.at.0 }
    ensures { Tells (expect 3 expression_arg_list) s.now c st left rows.old rows.new errors.old errors.new result }
{
    let read = directive::expression_arg_list(s, Cursor { met: false, ..c }, left, rows);
    let done = lifted(s, st, read, errors);
    expected(c, done, ErrorCode::ExpectedExpression, errors)
}

pub fn data(
    mut p: Spot<Lines>,
    st: State,
    left: usize,
    rows: &mut [u32],
    errors: &mut [u32],
) -> Done
    requires { Fit 0 p.text.now p.start st }
    ensures { Tells data' p.entry.text.now p.entry.start st left rows.old rows.new errors.old errors.new result }
{
    let (s, c) = (p.text, p.start);
    clear(&mut p);
    let read = directive::data_head(p, rows);
    let (d, x) = lifted(s, st, read, errors)?;
    let (e, y) = values(s, d, x, left, rows, errors)?;
    row::close(c, p.end, e, y, Kind::Data, false, rows)
}
