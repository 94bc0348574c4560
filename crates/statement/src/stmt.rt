// The cycle of statements and blocks. A spot is lent from function to function, since a copy for a call would stand in the caller's frame, once for each
// level of blocks.
ghost use Rattle.std.specs.Prelude.{false, ◌≡◌, ◌^◌, ◌≤◌, ◌<◌, length};
ghost use Rattle.reading.specs.Grammar.{◌▸◌, many0};
ghost use Rattle.reading.specs.Rules.{opt, multiline_trivia, directive, expression, block, block_item, braces, label, macro_definition, import', statement};
ghost use Rattle.table.specs.Kinds.{kind_number};
ghost use Rattle.state.specs.Acts.{Fit};
ghost use Rattle.state.specs.Lent.{seen, Same, DoesIn};
ghost use Rattle.statement.specs.Shapes.{optional, body_of, closing, Headed, Ends};
ghost use Rattle.statement.specs.Heads.{from_macro, from_loop, from_import};
ghost use Rattle.head.specs.Heads.{directive_of};

use crate::lift::lifted;
use crate::{Body, brace, quiet, row, text};
use cursor::{Cursor, Stop};
use lexis::mark;
use lexis::spot::{Lines, Spot};
use state::{Done, State, Tables};
use table::{Kind, Pos};

// What stands behind a statement's head, the kind of the row around it all, and whether that row takes a scope number.
#[derive(Clone, Copy)]
struct Form {
    body: Body,
    kind: Kind,
    scope: bool,
}

const LABEL: Form = Form {
    body: Body::Maybe,
    kind: Kind::Label,
    scope: false,
};

const MACRO: Form = Form {
    body: Body::Block,
    kind: Kind::MacroDefinition,
    scope: false,
};

const SEGMENT: Form = Form {
    body: Body::Maybe,
    kind: Kind::Segment,
    scope: false,
};

const LOOP: Form = Form {
    body: Body::Block,
    kind: Kind::Loop,
    scope: true,
};

const IF: Form = Form {
    body: Body::Branches,
    kind: Kind::If,
    scope: false,
};

const TEST: Form = Form {
    body: Body::Block,
    kind: Kind::Test,
    scope: false,
};

// A statement or error text.
#[cycle(statement)]
fn item(s: &[u8], c: Cursor, st: State, left: usize, tables: &mut Tables) -> Done
    requires fit { Fit 0 s.now c st }
    requires behind { 1 ≤ c.at.0 }
    ensures { DoesIn block_item s.now c st left tables.old tables.new result }
{
    let x = match statement(s, c, st, left, tables) {
        Err(Stop::Miss(x)) => x,
        done => return done,
    };
    text::error_in_block(s, c, x, tables.rows, tables.errors)
}

#[cycle(statement)]
fn items(s: &[u8], c: Cursor, st: State, left: usize, tables: &mut Tables) -> Done
    requires fit { Fit 0 s.now c st }
    requires behind { 1 ≤ c.at.0 }
    ensures { DoesIn (many0 block_item) s.now c st left tables.old tables.new result }
{
    let mut next = c;
    let mut state = st;
    // As in `source_file`.
    loop {
        let start = Cursor { met: false, ..next };
        match item(s, start, state, left, tables) {
            Ok((d, x)) => {
                next = d;
                state = x;
            }
            Err(Stop::Miss(x)) => return Ok((start, x)),
            Err(Stop::Deep) => return Err(Stop::Deep),
        }
    }
}

// A block, its brace behind the trivia before it.
#[cycle(statement)]
fn braced(p: &Spot<Lines>, st: State, left: usize, tables: &mut Tables) -> Done
    requires fit { Fit 0 p.now.text.now p.now.start st }
    requires sober { p.now.start.met ≡ false }
    ensures { DoesIn block p.now.text.now p.now.start st left tables.old tables.new result }
{
    let (d, x) = brace::mark(*p, st, b'{', tables.rows, tables.errors)?;
    if left == 0 {
        return Err(Stop::Deep);
    }
    let low = Pos(d.at.0 - 1);
    let (e, y) = items(p.text, d, x, left - 1, tables)?;
    let (j, z) = brace::close(p.text, e, y, p.start.at, low, tables.rows, tables.errors)?;
    let end = mark::around(p.start, low, j, Kind::Block, 0, tables.rows);
    Ok((Cursor { met: false, ..end }, z))
}

#[cycle(statement)]
fn block(s: &[u8], c: Cursor, st: State, left: usize, tables: &mut Tables) -> Done
    requires { Fit 0 s.now c st }
    ensures { DoesIn block s.now c st left tables.old tables.new result }
{
    let p = Spot::<Lines>::new(s, Cursor { met: false, ..c });
    braced(&p, st, left, tables)
}

// What was tried from `c` on may be missing.
fn optional(c: Cursor, done: Done) -> Done
    ensures { result ≡ optional c done }
{
    match done {
        Err(Stop::Miss(x)) => Ok((Cursor { met: false, ..c }, x)),
        done => done,
    }
}

// A block or nothing.
#[cycle(statement)]
fn maybe(s: &[u8], c: Cursor, st: State, left: usize, tables: &mut Tables) -> Done
    requires { Fit 0 s.now c st }
    ensures { DoesIn (opt block) s.now c st left tables.old tables.new result }
{
    let done = block(s, c, st, left, tables);
    optional(c, done)
}

// `else` and its block.
#[cycle(statement)]
fn other(s: &[u8], c: Cursor, st: State, left: usize, tables: &mut Tables) -> Done
    requires { Fit 0 s.now c st }
    ensures { DoesIn (directive "else" ▸ block) s.now c st left tables.old tables.new result }
{
    let p = Spot::<Lines>::new(s, Cursor { met: false, ..c });
    let read = head::directive::else_head(p, tables.rows);
    let (d, x) = lifted(s, st, read, tables.errors)?;
    block(s, d, x, left, tables)
}

// The branches of an if.
#[cycle(statement)]
fn branches(s: &[u8], c: Cursor, st: State, left: usize, tables: &mut Tables) -> Done
    requires { Fit 0 s.now c st }
    ensures { DoesIn (block ▸ opt (directive "else" ▸ block)) s.now c st left tables.old tables.new result }
{
    let (d, x) = block(s, c, st, left, tables)?;
    let done = other(s, d, x, left, tables);
    optional(d, done)
}

#[cycle(statement)]
fn body(s: &[u8], c: Cursor, b: Body, st: State, left: usize, tables: &mut Tables) -> Done
    requires { Fit 0 s.now c st }
    ensures { DoesIn (body_of b) s.now c st left tables.old tables.new result }
{
    match b {
        Body::Maybe => maybe(s, c, st, left, tables),
        Body::Block => block(s, c, st, left, tables),
        Body::Branches => branches(s, c, st, left, tables),
    }
}

// The rest of a statement whose head has answered h: what stands behind it, and the row around all.
#[cycle(statement)]
fn rest(p: &Spot<Lines>, h: Done, form: Form, left: usize, tables: &mut Tables) -> Done
    requires sober { p.now.start.met ≡ false }
    requires headed { Headed p.now.text.now p.now.start h }
    ensures same { Same tables.old tables.new }
    ensures does { Ends form.body form.scope (kind_number form.kind) p.now.text.now p.now.start p.now.end h left (seen tables.old) (seen tables.new) result }
{
    let (d, x) = h?;
    let (e, y) = body(p.text, d, form.body, x, left, tables)?;
    row::close(p.start, p.end, e, y, form.kind, form.scope, tables.rows)
}

// A statement of a directive and an expression. It is written out where it is called: it would be a frame more for each level.
#[cycle(statement)]
#[inline(always)]
fn directive(
    p: &Spot<Lines>,
    word: &[u8],
    form: Form,
    st: State,
    left: usize,
    tables: &mut Tables,
) -> Done
    requires fit { Fit 0 p.now.text.now p.now.start st }
    requires sober { p.now.start.met ≡ false × (1 ≤ length word.now) }
    ensures { DoesIn (closing form.scope (kind_number form.kind) (directive_of word.now) (expression ▸ body_of form.body)) p.now.text.now p.now.start st left tables.old tables.new result }
{
    let read = head::directive::directive_expression(*p, word, left, tables.rows);
    let h = lifted(p.text, st, read, tables.errors);
    rest(p, h, form, left, tables)
}

#[cycle(statement)]
fn braces(p: &Spot<Lines>, st: State, left: usize, tables: &mut Tables) -> Done
    requires fit { Fit 0 p.now.text.now p.now.start st }
    requires sober { p.now.start.met ≡ false }
    ensures { DoesIn braces p.now.text.now p.now.start st left tables.old tables.new result }
{
    let (d, x) = braced(p, st, left, tables)?;
    row::close(p.start, p.end, d, x, Kind::Braces, true, tables.rows)
}

#[cycle(statement)]
fn label(p: &Spot<Lines>, st: State, left: usize, tables: &mut Tables) -> Done
    requires fit { Fit 0 p.now.text.now p.now.start st }
    requires sober { p.now.start.met ≡ false }
    ensures { DoesIn label p.now.text.now p.now.start st left tables.old tables.new result }
{
    let read = head::definition::label_head(*p, tables.rows);
    let h = lifted(p.text, st, read, tables.errors);
    rest(p, h, LABEL, left, tables)
}

#[cycle(statement)]
fn macro_of(p: &Spot<Lines>, st: State, left: usize, tables: &mut Tables) -> Done
    requires fit { Fit 0 p.now.text.now p.now.start st }
    requires sober { p.now.start.met ≡ false }
    ensures { DoesIn macro_definition p.now.text.now p.now.start st left tables.old tables.new result }
{
    let read = head::definition::macro_head(*p, tables.rows);
    let h = lifted(p.text, st, read, tables.errors);
    rest(p, h, MACRO, left, tables)
}

#[cycle(statement)]
fn import(p: &Spot<Lines>, st: State, left: usize, tables: &mut Tables) -> Done
    requires fit { Fit 0 p.now.text.now p.now.start st }
    requires sober { p.now.start.met ≡ false }
    ensures { DoesIn import' p.now.text.now p.now.start st left tables.old tables.new result }
{
    let read = head::import::import_head(*p, tables.rows);
    let (d, x) = lifted(p.text, st, read, tables.errors)?;
    let quote = trivia::trivia(p.text, d.at, false);
    let read = head::import::import_file(p.text, Cursor { met: false, ..d }, tables.rows);
    let (e, y) = lifted(p.text, x, read, tables.errors)?;
    let high = Pos(e.at.0 - 1);
    let (j, z) = maybe(p.text, e, y, left, tables)?;
    row::import(
        p.start,
        p.end,
        j,
        z,
        quote.at,
        high,
        tables.rows,
        tables.requests,
    )
}

// The alternatives from .import on.
#[cycle(statement)]
fn fourth(p: &Spot<Lines>, st: State, left: usize, tables: &mut Tables) -> Done
    requires fit { Fit 0 p.now.text.now p.now.start st }
    requires sober { p.now.start.met ≡ false }
    ensures { DoesIn from_import p.now.text.now p.now.start st left tables.old tables.new result }
{
    let st = match import(p, st, left, tables) {
        Err(Stop::Miss(st)) => st,
        done => return done,
    };
    let st = match quiet::texts(*p, st, left, tables.rows, tables.errors) {
        Err(Stop::Miss(st)) => st,
        done => return done,
    };
    let st = match directive(p, b".test", TEST, st, left, tables) {
        Err(Stop::Miss(st)) => st,
        done => return done,
    };
    quiet::checks(*p, st, left, tables.rows, tables.errors)
}

// From .loop on.
#[cycle(statement)]
fn third(p: &Spot<Lines>, st: State, left: usize, tables: &mut Tables) -> Done
    requires fit { Fit 0 p.now.text.now p.now.start st }
    requires sober { p.now.start.met ≡ false }
    ensures { DoesIn from_loop p.now.text.now p.now.start st left tables.old tables.new result }
{
    let st = match directive(p, b".loop", LOOP, st, left, tables) {
        Err(Stop::Miss(st)) => st,
        done => return done,
    };
    let st = match directive(p, b".if", IF, st, left, tables) {
        Err(Stop::Miss(st)) => st,
        done => return done,
    };
    let read = head::directive::align(*p, left, tables.rows);
    let st = match lifted(p.text, st, read, tables.errors) {
        Err(Stop::Miss(st)) => st,
        done => return done,
    };
    fourth(p, st, left, tables)
}

// From .macro on.
#[cycle(statement)]
fn second(p: &Spot<Lines>, st: State, left: usize, tables: &mut Tables) -> Done
    requires fit { Fit 0 p.now.text.now p.now.start st }
    requires sober { p.now.start.met ≡ false }
    ensures { DoesIn from_macro p.now.text.now p.now.start st left tables.old tables.new result }
{
    let st = match macro_of(p, st, left, tables) {
        Err(Stop::Miss(st)) => st,
        done => return done,
    };
    let st = match quiet::calls(*p, st, left, tables.rows, tables.errors) {
        Err(Stop::Miss(st)) => st,
        done => return done,
    };
    let st = match directive(p, b".segment", SEGMENT, st, left, tables) {
        Err(Stop::Miss(st)) => st,
        done => return done,
    };
    third(p, st, left, tables)
}

// One of the twenty statements. The trivia before it is read once.
#[cycle(statement)]
pub fn statement(s: &[u8], c: Cursor, st: State, left: usize, tables: &mut Tables) -> Done
    requires { Fit 0 s.now c st }
    ensures { DoesIn statement s.now c st left tables.old tables.new result }
{
    let p = Spot::<Lines>::new(s, Cursor { met: false, ..c });
    let st = match braces(&p, st, left, tables) {
        Err(Stop::Miss(st)) => st,
        done => return done,
    };
    let st = match label(&p, st, left, tables) {
        Err(Stop::Miss(st)) => st,
        done => return done,
    };
    let st = match quiet::instructions(p, st, left, tables.rows, tables.errors) {
        Err(Stop::Miss(st)) => st,
        done => return done,
    };
    second(&p, st, left, tables)
}
