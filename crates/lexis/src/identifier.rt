// Names and paths.
ghost use Rattle.std.specs.Prelude.{◌≤◌, length};
ghost use Rattle.reading.specs.Grammar.{always, node};
ghost use Rattle.reading.specs.Kind.{nameᵏ, pathᵏ};
ghost use Rattle.reading.specs.Rules.{identifier_name, identifier_scope, identifier_path};
ghost use Rattle.cursor.specs.Agree.{Leafs};
ghost use Rattle.lexis.specs.Finds.{Finds, identifier, dotted, identifiers};

use crate::mark;
use crate::spot::{Gap, Spot};
use cursor::{Read, Skip, Stop};
use table::{Kind, Pos};
use trivia::class::Class;

// `-` or `+` with no letter or digit behind it.
fn scope(s: &[u8], at: Pos) -> Option<Pos>
    ensures { Finds identifier_scope s.now at.0 result }
{
    let i = at.0;
    if s.len() <= i {
        return None;
    }
    let b = s[i];
    if !((b == b'-') | (b == b'+')) {
        return None;
    }
    let j = i + 1;
    if s.len() <= j {
        return Some(Pos(j));
    }
    let next = s[j];
    if Class::Letter.has(next) | Class::Digit.has(next) {
        return None;
    }
    Some(Pos(j))
}

// One of those, or a name.
fn identifier(s: &[u8], at: Pos) -> Option<Pos>
    ensures { Finds identifier s.now at.0 result }
{
    match scope(s, at) {
        None => mark::name_end(s, at, b'_'),
        end => end,
    }
}

// An identifier behind a dot.
fn dotted(s: &[u8], at: Pos) -> Option<Pos>
    requires { at.0 ≤ length s.now }
    ensures { Finds dotted s.now at.0 result }
{
    if !trivia::byte_is(s, at, b'.') {
        return None;
    }
    identifier(s, Pos(at.0 + 1))
}

// Identifiers with dots between them.
fn identifiers(s: &[u8], at: Pos) -> Option<Pos>
    requires { at.0 ≤ length s.now }
    ensures { Finds identifiers s.now at.0 result }
{
    let mut end = identifier(s, at)?;
    // A turn goes on from where the reader stopped, so this is no `for`.
    while let Some(next) = dotted(s, end) {
        end = next;
    }
    Some(end)
}

// A name with its row.
pub fn name<G: Gap>(p: Spot<G>, rows: &mut [u32]) -> Read
    ensures { Leafs (node nameᵏ (always 0) G.rule identifier_name) p.entry.text.now p.entry.start rows.old rows.new result }
{
    mark::name(p, b'_', Kind::Name, rows)
}

// A path with its row. It begins with trivia of its own, which is in the row's body.
pub fn path<G: Gap>(p: Spot<G>, rows: &mut [u32]) -> Read
    ensures { Leafs (node pathᵏ (always 0) G.rule identifier_path) p.entry.text.now p.entry.start rows.old rows.new result }
{
    let k = p.end;
    let j = trivia::trivia(p.text, k.at, k.met);
    let Some(high) = identifiers(p.text, j.at) else {
        return Err(Stop::Miss(j.met));
    };
    mark::row(p.start, Skip { met: j.met, ..k }, high, Kind::Path, 0, rows)
}
