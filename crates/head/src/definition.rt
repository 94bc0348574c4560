// Labels, variables, the program counter, config maps and macros.
ghost use Rattle.std.specs.Prelude.{◌^◌, ◌≤◌, ◌<◌, length};
ghost use Rattle.reading.specs.Rules.{multiline_trivia, name, identifier_arg_list, variable_definition, const_definition, pc_definition, macro_invocation};
ghost use Rattle.cursor.specs.Agree.{Ready, Reads};
ghost use Rattle.head.specs.Parts.{Flat};
ghost use Rattle.head.specs.Heads.{assigned, named, varconst, label_head, define_head, parameters, macro_head};

use crate::{directive, part};
use VariableType::{Constant, Variable};
use cursor::{Cursor, Read};
use lexis::spot::{Lines, Nothing, Spot};
use lexis::{identifier, mark};
use table::Kind;

// The numbers are the details of the rows of types.
enum VariableType {
    Constant = 1,
    Variable,
}

// `=` and an expression.
fn assigned(s: &[u8], c: Cursor, left: usize, rows: &mut [u32]) -> Read
    requires { Ready 8 s.now c }
    ensures { Reads assigned s.now c left rows.old rows.new result }
{
    let d = part::char(s, c, b'=', rows)?;
    part::expression(s, d, left, rows)
}

fn named(s: &[u8], c: Cursor, left: usize, rows: &mut [u32]) -> Read
    requires { Ready 8 s.now c }
    ensures { Reads named s.now c left rows.old rows.new result }
{
    let d = part::name(s, c, rows)?;
    assigned(s, d, left, rows)
}

// A variable or a constant, by its word and the detail of its type.
fn varconst(p: Spot<Lines>, word: &[u8], detail: usize, left: usize, rows: &mut [u32]) -> Read
    requires nonempty { 1 ≤ length word.now }
    requires detail_bound { detail < 2 ^ 32 }
    ensures { Reads (varconst word.now detail) p.entry.text.now p.entry.start left rows.old rows.new result }
{
    let d = mark::word(p, word, Kind::VariableType, detail, rows)?;
    let g = named(p.text, d, left, rows);
    part::whole(p.start, p.end, g, Kind::VariableDefinition, rows)
}

#[tactic(auto, unfolding(reading::specs::Rules::variable_definition, crate::specs::Heads::varconst, crate::specs::Heads::word_of, crate::specs::Heads::named, crate::specs::Heads::assigned))]
pub fn variable_definition(p: Spot<Lines>, left: usize, rows: &mut [u32]) -> Read
    ensures { Reads variable_definition p.entry.text.now p.entry.start left rows.old rows.new result }
{
    varconst(p, b".var", Variable as usize, left, rows)
}

#[tactic(auto, unfolding(reading::specs::Rules::const_definition, crate::specs::Heads::varconst, crate::specs::Heads::word_of, crate::specs::Heads::named, crate::specs::Heads::assigned))]
pub fn const_definition(p: Spot<Lines>, left: usize, rows: &mut [u32]) -> Read
    ensures { Reads const_definition p.entry.text.now p.entry.start left rows.old rows.new result }
{
    varconst(p, b".const", Constant as usize, left, rows)
}

pub fn pc_definition(p: Spot<Lines>, left: usize, rows: &mut [u32]) -> Read
    ensures { Reads pc_definition p.entry.text.now p.entry.start left rows.old rows.new result }
{
    let d = mark::char(p, b'*', rows)?;
    let g = assigned(p.text, d, left, rows);
    part::whole(p.start, p.end, g, Kind::ProgramCounterDefinition, rows)
}

pub fn macro_invocation(p: Spot<Lines>, left: usize, rows: &mut [u32]) -> Read
    ensures { Reads macro_invocation p.entry.text.now p.entry.start left rows.old rows.new result }
{
    let d = identifier::name(p, rows)?;
    let g = expression::call_parens(p.text, d, left, rows);
    part::whole(p.start, p.end, g, Kind::MacroInvocation, rows)
}

// A name and a colon right behind it.
pub fn label_head(p: Spot<Lines>, rows: &mut [u32]) -> Read
    ensures { Flat label_head p.entry.text.now p.entry.start rows.old rows.new result }
{
    let d = identifier::name(p, rows)?;
    mark::char(Spot::<Nothing>::new(p.text, d), b':', rows)
}

// `.define` and a name.
pub fn define_head(p: Spot<Lines>, rows: &mut [u32]) -> Read
    ensures { Flat define_head p.entry.text.now p.entry.start rows.old rows.new result }
{
    let d = directive::directive(p, b".define", rows)?;
    part::name(p.text, d, rows)
}

// A name in a list.
#[tactic(auto, using(crate::proofs::Steps::flat_leaf))]
fn parameter(s: &[u8], c: Cursor, rows: &mut [u32]) -> Read
    requires { Ready 8 s.now c }
    ensures { Flat name s.now c rows.old rows.new result }
{
    part::name(s, c, rows)
}

// Names with commas between them.
#[tactic(auto, unfolding(reading::specs::Rules::identifier_arg_list))]
fn identifier_arg_list(s: &[u8], c: Cursor, rows: &mut [u32]) -> Read
    requires { Ready 8 s.now c }
    ensures { Flat identifier_arg_list s.now c rows.old rows.new result }
{
    part::list(s, c, parameter, rows)
}

// Names in parentheses, or none in them.
fn parameters(s: &[u8], c: Cursor, rows: &mut [u32]) -> Read
    requires { Ready 8 s.now c }
    ensures { Flat parameters s.now c rows.old rows.new result }
{
    let d = part::char(s, c, b'(', rows)?;
    let g = identifier_arg_list(s, d, rows);
    let e = part::optional(d, g)?;
    part::char(s, e, b')', rows)
}

// `.macro`, a name and the parameters.
pub fn macro_head(p: Spot<Lines>, rows: &mut [u32]) -> Read
    ensures { Flat macro_head p.entry.text.now p.entry.start rows.old rows.new result }
{
    let d = directive::directive(p, b".macro", rows)?;
    let e = part::name(p.text, d, rows)?;
    parameters(p.text, e, rows)
}
