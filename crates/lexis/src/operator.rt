// Words of a list, with their row: operators, modifiers, encodings, mnemonics; and register suffixes.
ghost use Rattle.std.specs.Prelude.{◌^◌, ◌<◌};
ghost use Rattle.reading.specs.Kind.{mnemonicᵏ};
ghost use Rattle.reading.specs.Rules.{term_operator, expression_operator, modifier, encoding, optional_suffix};
ghost use Rattle.cursor.specs.Agree.{Ready, Leafs};
ghost use Rattle.word.specs.Words.{mnemonic_list};
ghost use Rattle.reading.specs.Grammar.{pick};
ghost use Rattle.lexis.specs.Picks.{Chosen, Fitting};
ghost use Rattle.table.specs.Kinds.{kind_number};
ghost use Rattle.lexis.specs.Suffix.{register, suffix};

use crate::mark;
use crate::spot::{Gap, Line, Spot};
use IndexRegister::{X, Y};
use cursor::{Cursor, Read, Skip, Stop};
use table::{Kind, Pos};
use word::Word;

// The row of a word that was picked at `k.at`, if one was.
fn picked(c: Cursor, k: Skip, p: Option<Word>, kind: Kind, rows: &mut [u32]) -> Read
    requires count_bound { (c.count.0 < 2 ^ 32) × (c.at.0 < 2 ^ 32) × (k.at.0 < 2 ^ 32) }
    requires fitting { Fitting k.at.0 p }
    ensures { Chosen (kind_number kind) p c k rows.old rows.new result }
{
    let Some(word) = p else {
        return Err(Stop::Miss(k.met));
    };
    mark::row(c, k, Pos(k.at.0 + word.length), kind, word.detail, rows)
}

pub fn term_operator(s: &[u8], c: Cursor, rows: &mut [u32]) -> Read
    requires { Ready 8 s.now c }
    ensures { Leafs term_operator s.now c rows.old rows.new result }
{
    let k = trivia::trivia(s, c.at, c.met);
    let p = word::operator::term_operator(s, k.at);
    picked(c, k, p, Kind::Operator, rows)
}

pub fn expression_operator(s: &[u8], c: Cursor, rows: &mut [u32]) -> Read
    requires { Ready 8 s.now c }
    ensures { Leafs expression_operator s.now c rows.old rows.new result }
{
    let k = trivia::trivia(s, c.at, c.met);
    let p = word::operator::expression_operator(s, k.at);
    picked(c, k, p, Kind::Operator, rows)
}

pub fn modifier(s: &[u8], c: Cursor, rows: &mut [u32]) -> Read
    requires { Ready 8 s.now c }
    ensures { Leafs modifier s.now c rows.old rows.new result }
{
    let k = trivia::trivia(s, c.at, c.met);
    let p = word::operator::modifier(s, k.at);
    picked(c, k, p, Kind::Modifier, rows)
}

pub fn encoding(s: &[u8], c: Cursor, rows: &mut [u32]) -> Read
    requires { Ready 8 s.now c }
    ensures { Leafs encoding s.now c rows.old rows.new result }
{
    let k = trivia::trivia(s, c.at, c.met);
    let p = word::encoding(s, k.at);
    picked(c, k, p, Kind::Encoding, rows)
}

// A mnemonic that may have an operand, or an implied one.
pub fn mnemonic<G: Gap>(p: Spot<G>, implied: bool, rows: &mut [u32]) -> Read
    ensures { Leafs (pick mnemonicᵏ G.rule (mnemonic_list implied)) p.entry.text.now p.entry.start rows.old rows.new result }
{
    let word = word::mnemonic::mnemonic(p.text, p.end.at, implied);
    picked(p.start, p.end, word, Kind::Mnemonic, rows)
}

// The numbers are the details of a register's row.
enum IndexRegister {
    X = 1,
    Y,
}

// `x` or `y`.
fn register(s: &[u8], c: Cursor, rows: &mut [u32]) -> Read
    requires { Ready 8 s.now c }
    ensures { Leafs register s.now c rows.old rows.new result }
{
    let p = Spot::<Line>::new(s, c);
    let met = match mark::word(p, b"x", Kind::Register, X as usize, rows) {
        Err(Stop::Miss(met)) => met,
        read => return read,
    };
    mark::word(p.after(met), b"y", Kind::Register, Y as usize, rows)
}

// A comma and a register. The written reading tries the comma twice; it is read once here.
fn suffix(s: &[u8], c: Cursor, rows: &mut [u32]) -> Read
    requires { Ready 8 s.now c }
    ensures { Leafs suffix s.now c rows.old rows.new result }
{
    let d = mark::spaced(s, c, b',', rows)?;
    register(s, d, rows)
}

// That or nothing: it never misses.
pub fn optional_suffix(s: &[u8], c: Cursor, rows: &mut [u32]) -> Read
    requires { Ready 8 s.now c }
    ensures { Leafs optional_suffix s.now c rows.old rows.new result }
{
    match suffix(s, c, rows) {
        Err(Stop::Miss(met)) => Ok(Cursor { met, ..c }),
        read => read,
    }
}
