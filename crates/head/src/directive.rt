// Statements that begin with a directive, and the directives of those with a block.
ghost use Rattle.std.specs.Prelude.{◌≤◌, length};
ghost use Rattle.reading.specs.Grammar.{◌▸◌, over};
ghost use Rattle.reading.specs.Rules.{opt, directive, multiline_trivia, expression, expression_arg_list, encoding, data_size, align, text, file, assert, trace};
ghost use Rattle.cursor.specs.Agree.{Ready, Reads};
ghost use Rattle.table.specs.Kinds.{kind_number};
ghost use Rattle.head.specs.Parts.{Flat};
ghost use Rattle.head.specs.Tails.{Tail, tail_of};
ghost use Rattle.head.specs.Heads.{directive_of, directive_expression, wide_size, encoded, asserted, traced};

use crate::part;
use DataSize::{Byte, Dword, Word};
use cursor::{Cursor, Read, Stop};
use lexis::spot::{Lines, Spot};
use lexis::{mark, operator};
use table::Kind;

// The numbers are the details of the rows of sizes.
enum DataSize {
    Byte = 1,
    Word,
    Dword,
}

// A word in any letter case.
#[tactic(auto, using(crate::proofs::Steps::flat_leaf), unfolding(crate::specs::Heads::directive_of, crate::specs::Heads::word_of))]
pub fn directive(p: Spot<Lines>, word: &[u8], rows: &mut [u32]) -> Read
    ensures { Flat (directive_of word.now) p.entry.text.now p.entry.start rows.old rows.new result }
{
    mark::word(p, word, Kind::Word, 0, rows)
}

#[tactic(auto, unfolding(crate::specs::Heads::directive_of, crate::specs::Heads::word_of))]
pub fn else_head(p: Spot<Lines>, rows: &mut [u32]) -> Read
    ensures { Flat (directive "else") p.entry.text.now p.entry.start rows.old rows.new result }
{
    directive(p, b"else", rows)
}

// A directive and an expression: `.segment`, `.loop`, `.if` and `.test`.
pub fn directive_expression(p: Spot<Lines>, word: &[u8], left: usize, rows: &mut [u32]) -> Read
    requires nonempty { 1 ≤ length word.now }
    ensures { Reads (directive_expression word.now) p.entry.text.now p.entry.start left rows.old rows.new result }
{
    let d = directive(p, word, rows)?;
    part::expression(p.text, d, left, rows)
}

// `.word` or `.dword`.
fn wide_size(p: Spot<Lines>, rows: &mut [u32]) -> Read
    ensures { Flat wide_size p.entry.text.now p.entry.start rows.old rows.new result }
{
    let met = match mark::word(p, b".word", Kind::DataSize, Word as usize, rows) {
        Err(Stop::Miss(met)) => met,
        read => return read,
    };
    mark::word(
        p.after(met),
        b".dword",
        Kind::DataSize,
        Dword as usize,
        rows,
    )
}

// `.byte` or one of those.
pub fn data_head(p: Spot<Lines>, rows: &mut [u32]) -> Read
    ensures { Flat data_size p.entry.text.now p.entry.start rows.old rows.new result }
{
    let met = match mark::word(p, b".byte", Kind::DataSize, Byte as usize, rows) {
        Err(Stop::Miss(met)) => met,
        read => return read,
    };
    wide_size(p.after(met), rows)
}

// The arguments of `.byte` and `.trace`.
#[tactic(auto, using(crate::proofs::Arguments::reads_arguments))]
pub fn expression_arg_list(s: &[u8], c: Cursor, left: usize, rows: &mut [u32]) -> Read
    requires ready { Ready 8 s.now c }
    requires behind_byte { 1 ≤ c.at.0 }
    ensures { Reads expression_arg_list s.now c left rows.old rows.new result }
{
    expression::arguments(s, c, left, rows)
}

// A directive, what `tail` reads behind it, and the row around both.
// `.file` has no level to hand on, and definitions and instructions begin with other rows: they take the three steps themselves.
// A head without a row of its own is two calls, which one function would not shorten.
fn worded<F: Fn(&[u8], Cursor, usize, &mut [u32]) -> Read>(
    p: Spot<Lines>,
    word: &[u8],
    kind: Kind,
    tail: F,
    left: usize,
    rows: &mut [u32],
) -> Read
    ghost behind: { Tail }
    requires nonempty { 1 ≤ length word.now }
    requires callable { (d : _) (t : _) → Ready 8 p.text.now d → F.pre tail p.text d left t }
    requires reads { (d : _) (t : _) (r : _) (u : _) → Ready 8 p.text.now d → F.post tail p.text d left t r u → Reads (tail_of behind) p.text.now d left t.now u.now r }
    ensures { Reads (over (kind_number kind) 0 (directive_of word.now) (tail_of behind)) p.entry.text.now p.entry.start left rows.old rows.new result }
{
    let d = directive(p, word, rows)?;
    let g = tail(p.text, d, left, rows);
    part::whole(p.start, p.end, g, kind, rows)
}

#[tactic(auto, unfolding(reading::specs::Rules::align, crate::specs::Heads::directive_of, crate::specs::Heads::word_of))]
pub fn align(p: Spot<Lines>, left: usize, rows: &mut [u32]) -> Read
    ensures { Reads align p.entry.text.now p.entry.start left rows.old rows.new result }
{
    worded(p, b".align", Kind::Align, part::expression, left, rows)
}

// An encoding and an expression.
fn encoding_expression(s: &[u8], c: Cursor, left: usize, rows: &mut [u32]) -> Read
    requires { Ready 8 s.now c }
    ensures { Reads (encoding ▸ expression) s.now c left rows.old rows.new result }
{
    let d = operator::encoding(s, c, rows)?;
    part::expression(s, d, left, rows)
}

// Or an expression alone, which may begin with the word of an encoding.
fn encoded(s: &[u8], c: Cursor, left: usize, rows: &mut [u32]) -> Read
    requires { Ready 8 s.now c }
    ensures { Reads encoded s.now c left rows.old rows.new result }
{
    let met = match encoding_expression(s, c, left, rows) {
        Err(Stop::Miss(met)) => met,
        read => return read,
    };
    part::expression(s, Cursor { met, ..c }, left, rows)
}

#[tactic(auto, unfolding(reading::specs::Rules::text, crate::specs::Heads::directive_of, crate::specs::Heads::word_of, crate::specs::Heads::encoded))]
pub fn text(p: Spot<Lines>, left: usize, rows: &mut [u32]) -> Read
    ensures { Reads text p.entry.text.now p.entry.start left rows.old rows.new result }
{
    worded(p, b".text", Kind::Text, encoded, left, rows)
}

pub fn file(p: Spot<Lines>, rows: &mut [u32]) -> Read
    ensures { Flat file p.entry.text.now p.entry.start rows.old rows.new result }
{
    let d = directive(p, b".file", rows)?;
    let g = part::string(p.text, d, true, rows);
    part::whole(p.start, p.end, g, Kind::File, rows)
}

// An expression, and a message or none.
fn asserted(s: &[u8], c: Cursor, left: usize, rows: &mut [u32]) -> Read
    requires { Ready 8 s.now c }
    ensures { Reads asserted s.now c left rows.old rows.new result }
{
    let d = part::expression(s, c, left, rows)?;
    let g = part::string(s, d, true, rows);
    part::optional(d, g)
}

#[tactic(auto, unfolding(reading::specs::Rules::assert, crate::specs::Heads::directive_of, crate::specs::Heads::word_of, crate::specs::Heads::asserted))]
pub fn assert(p: Spot<Lines>, left: usize, rows: &mut [u32]) -> Read
    ensures { Reads assert p.entry.text.now p.entry.start left rows.old rows.new result }
{
    worded(p, b".assert", Kind::Assert, asserted, left, rows)
}

// Arguments in parentheses, or none in them. They are no level.
fn traced(s: &[u8], c: Cursor, left: usize, rows: &mut [u32]) -> Read
    requires { Ready 8 s.now c }
    ensures { Reads traced s.now c left rows.old rows.new result }
{
    let d = part::char(s, c, b'(', rows)?;
    let g = expression_arg_list(s, d, left, rows);
    let e = part::optional(d, g)?;
    part::char(s, e, b')', rows)
}

// Those or nothing.
#[tactic(auto, using(crate::proofs::Steps::reads_optional))]
fn optional_traced(s: &[u8], c: Cursor, left: usize, rows: &mut [u32]) -> Read
    requires { Ready 8 s.now c }
    ensures { Reads (opt traced) s.now c left rows.old rows.new result }
{
    let f = traced(s, c, left, rows);
    part::optional(c, f)
}

#[tactic(auto, unfolding(reading::specs::Rules::trace, crate::specs::Heads::directive_of, crate::specs::Heads::word_of, crate::specs::Heads::traced))]
pub fn trace(p: Spot<Lines>, left: usize, rows: &mut [u32]) -> Read
    ensures { Reads trace p.entry.text.now p.entry.start left rows.old rows.new result }
{
    worded(p, b".trace", Kind::Trace, optional_traced, left, rows)
}
