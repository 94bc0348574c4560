// Groups of statements that report nothing of their own: each is read without the state, and what it met is noted once behind it.
ghost use Rattle.reading.specs.Grammar.{◌or◌};
ghost use Rattle.reading.specs.Rules.{multiline_trivia, instruction, variable_definition, const_definition, pc_definition, config_definition, macro_invocation, data', text, file, assert, trace};
ghost use Rattle.state.specs.Acts.{Fit, Tells};

use crate::expected;
use crate::lift::{clear, lifted};
use cursor::Stop;
use head::{definition, directive, instruction};
use lexis::spot::{Lines, Spot};
use state::{Done, State};

// Up to .define.
pub fn instructions(
    mut p: Spot<Lines>,
    st: State,
    left: usize,
    rows: &mut [u32],
    errors: &mut [u32],
) -> Done
    requires { Fit 0 p.text.now p.start st }
    ensures { Tells (instruction or variable_definition or const_definition or pc_definition or config_definition) p.entry.text.now p.entry.start st left rows.old rows.new errors.old errors.new result }
{
    let s = p.text;
    clear(&mut p);
    let read = instruction::instruction(p, left, rows);
    let st = match lifted(s, st, read, errors) {
        Err(Stop::Miss(st)) => st,
        done => return done,
    };
    let read = definition::variable_definition(p, left, rows);
    let st = match lifted(s, st, read, errors) {
        Err(Stop::Miss(st)) => st,
        done => return done,
    };
    let read = definition::const_definition(p, left, rows);
    let st = match lifted(s, st, read, errors) {
        Err(Stop::Miss(st)) => st,
        done => return done,
    };
    let read = definition::pc_definition(p, left, rows);
    let st = match lifted(s, st, read, errors) {
        Err(Stop::Miss(st)) => st,
        done => return done,
    };
    expected::definition(p, st, left, rows, errors)
}

pub fn calls(
    mut p: Spot<Lines>,
    st: State,
    left: usize,
    rows: &mut [u32],
    errors: &mut [u32],
) -> Done
    requires { Fit 0 p.text.now p.start st }
    ensures { Tells (macro_invocation or data') p.entry.text.now p.entry.start st left rows.old rows.new errors.old errors.new result }
{
    let s = p.text;
    clear(&mut p);
    let read = definition::macro_invocation(p, left, rows);
    let st = match lifted(s, st, read, errors) {
        Err(Stop::Miss(st)) => st,
        done => return done,
    };
    expected::data(p, st, left, rows, errors)
}

pub fn texts(
    mut p: Spot<Lines>,
    st: State,
    left: usize,
    rows: &mut [u32],
    errors: &mut [u32],
) -> Done
    requires { Fit 0 p.text.now p.start st }
    ensures { Tells (text or file) p.entry.text.now p.entry.start st left rows.old rows.new errors.old errors.new result }
{
    let s = p.text;
    clear(&mut p);
    let read = directive::text(p, left, rows);
    let st = match lifted(s, st, read, errors) {
        Err(Stop::Miss(st)) => st,
        done => return done,
    };
    let read = directive::file(p, rows);
    lifted(s, st, read, errors)
}

pub fn checks(
    mut p: Spot<Lines>,
    st: State,
    left: usize,
    rows: &mut [u32],
    errors: &mut [u32],
) -> Done
    requires { Fit 0 p.text.now p.start st }
    ensures { Tells (assert or trace) p.entry.text.now p.entry.start st left rows.old rows.new errors.old errors.new result }
{
    let s = p.text;
    clear(&mut p);
    let read = directive::assert(p, left, rows);
    let st = match lifted(s, st, read, errors) {
        Err(Stop::Miss(st)) => st,
        done => return done,
    };
    let read = directive::trace(p, left, rows);
    lifted(s, st, read, errors)
}
