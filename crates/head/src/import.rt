// Imports, up to the file's name.
ghost use Rattle.reading.specs.Grammar.{◌▸◌};
ghost use Rattle.reading.specs.Rules.{multiline_trivia, path, arg_list, char, quoted_string, as', specific_arg, import_args};
ghost use Rattle.cursor.specs.Agree.{Ready};
ghost use Rattle.head.specs.Parts.{Flat};
ghost use Rattle.head.specs.Heads.{as_path, import_names, import_head};

use crate::{directive, part};
use cursor::{Cursor, Read, Stop};
use lexis::mark;
use lexis::spot::{Line, Lines, Spot};
use table::Kind;

// `as` and a path.
fn as_path(s: &[u8], c: Cursor, rows: &mut [u32]) -> Read
    requires { Ready 8 s.now c }
    ensures { Flat as_path s.now c rows.old rows.new result }
{
    let d = mark::word(Spot::<Line>::new(s, c), b"as", Kind::Word, 0, rows)?;
    part::path(s, d, rows)
}

// That or nothing.
fn renamed(s: &[u8], c: Cursor, rows: &mut [u32]) -> Read
    requires { Ready 8 s.now c }
    ensures { Flat as' s.now c rows.old rows.new result }
{
    let f = as_path(s, c, rows);
    part::optional(c, f)
}

fn path_renamed(s: &[u8], c: Cursor, rows: &mut [u32]) -> Read
    requires { Ready 8 s.now c }
    ensures { Flat (path ▸ as') s.now c rows.old rows.new result }
{
    let d = part::path(s, c, rows)?;
    renamed(s, d, rows)
}

fn specific_arg(s: &[u8], c: Cursor, rows: &mut [u32]) -> Read
    requires { Ready 8 s.now c }
    ensures { Flat specific_arg s.now c rows.old rows.new result }
{
    let k = trivia::trivia(s, c.at, c.met);
    let start = Cursor {
        at: k.at,
        met: k.met,
        ..c
    };
    let f = path_renamed(s, start, rows);
    part::whole(c, k, f, Kind::ImportArgument, rows)
}

// Those with commas between them.
fn specific_args(s: &[u8], c: Cursor, rows: &mut [u32]) -> Read
    requires { Ready 8 s.now c }
    ensures { Flat (arg_list specific_arg) s.now c rows.old rows.new result }
{
    part::list(s, c, specific_arg, rows)
}

// `*`, which may have a new name too.
fn all(s: &[u8], c: Cursor, rows: &mut [u32]) -> Read
    requires { Ready 8 s.now c }
    ensures { Flat (char "*" ▸ as') s.now c rows.old rows.new result }
{
    let d = part::char(s, c, b'*', rows)?;
    renamed(s, d, rows)
}

fn import_args(s: &[u8], c: Cursor, rows: &mut [u32]) -> Read
    requires { Ready 8 s.now c }
    ensures { Flat import_args s.now c rows.old rows.new result }
{
    let met = match all(s, c, rows) {
        Err(Stop::Miss(met)) => met,
        read => return read,
    };
    specific_args(s, Cursor { met, ..c }, rows)
}

// What is imported, and `from`.
fn import_names(s: &[u8], c: Cursor, rows: &mut [u32]) -> Read
    requires { Ready 8 s.now c }
    ensures { Flat import_names s.now c rows.old rows.new result }
{
    let d = import_args(s, c, rows)?;
    mark::word(Spot::<Lines>::new(s, d), b"from", Kind::Word, 0, rows)
}

// The directive with all that.
pub fn import_head(p: Spot<Lines>, rows: &mut [u32]) -> Read
    ensures { Flat import_head p.entry.text.now p.entry.start rows.old rows.new result }
{
    let d = directive::directive(p, b".import", rows)?;
    import_names(p.text, d, rows)
}

// The file's name.
#[tactic(auto, using(crate::proofs::Steps::flat_leaf))]
pub fn import_file(s: &[u8], c: Cursor, rows: &mut [u32]) -> Read
    requires { Ready 8 s.now c }
    ensures { Flat quoted_string s.now c rows.old rows.new result }
{
    part::string(s, c, false, rows)
}
