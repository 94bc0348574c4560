// What statements are made of.
ghost use Rattle.std.specs.Prelude.{◌≡◌};
ghost use Rattle.reading.specs.Rules.{name, path, expression, arg_list};
ghost use Rattle.head.specs.Lists.{Item, item_of};
ghost use Rattle.cursor.specs.Agree.{Ready, Reads, Leafs};
ghost use Rattle.literal.specs.Parts.{string_of};
ghost use Rattle.head.specs.Parts.{Flat, optional, Whole, Closable};
ghost use Rattle.head.specs.Heads.{char_of};

use cursor::{Cursor, Read, Skip, Stop};
use lexis::spot::{Line, Spot};
use lexis::{identifier, mark};
use reading::HasNumber;

// A character behind its trivia.
#[tactic(auto, unfolding(crate::specs::Heads::char_of))]
pub fn char(s: &[u8], c: Cursor, b: u8, rows: &mut [u32]) -> Read
    requires { Ready 8 s.now c }
    ensures { Leafs (char_of b) s.now c rows.old rows.new result }
{
    mark::spaced(s, c, b, rows)
}

#[tactic(auto, unfolding(reading::specs::Rules::name))]
pub fn name(s: &[u8], c: Cursor, rows: &mut [u32]) -> Read
    requires { Ready 8 s.now c }
    ensures { Leafs name s.now c rows.old rows.new result }
{
    identifier::name(Spot::<Line>::new(s, c), rows)
}

#[tactic(auto, unfolding(reading::specs::Rules::path))]
pub fn path(s: &[u8], c: Cursor, rows: &mut [u32]) -> Read
    requires { Ready 8 s.now c }
    ensures { Leafs path s.now c rows.old rows.new result }
{
    identifier::path(Spot::<Line>::new(s, c), rows)
}

// Items with commas between them. The last one, which the written reading tries with a comma and without, is read once.
pub(crate) fn list<F: Fn(&[u8], Cursor, &mut [u32]) -> Read>(
    s: &[u8],
    c: Cursor,
    item: F,
    rows: &mut [u32],
) -> Read
    ghost listed: { Item }
    requires ready { Ready 8 s.now c }
    requires callable { (d : _) (t : _) → Ready 8 s.now d → F.pre item s d t }
    requires reads { (d : _) (t : _) (r : _) (u : _) → Ready 8 s.now d → F.post item s d t r u → Flat (item_of listed) s.now d t.now u.now r }
    ensures { Flat (arg_list (item_of listed)) s.now c rows.old rows.new result }
{
    let mut next = c;
    // A turn goes on from where the reader stopped, with the tables lent for writing: an iterator would hide that, and be no shorter.
    loop {
        let last = item(s, next, rows)?;
        match char(s, last, b',', rows) {
            Ok(e) => next = e,
            Err(Stop::Miss(met)) => return Ok(Cursor { met, ..last }),
            Err(Stop::Deep) => return Err(Stop::Deep),
        }
    }
}

// A string, with paths in braces or without.
pub fn string(s: &[u8], c: Cursor, interpolated: bool, rows: &mut [u32]) -> Read
    requires { Ready 8 s.now c }
    ensures { Leafs (string_of interpolated) s.now c rows.old rows.new result }
{
    literal::text::string(Spot::<Line>::new(s, c), interpolated, rows)
}

pub fn expression(s: &[u8], c: Cursor, left: usize, rows: &mut [u32]) -> Read
    requires { Ready 8 s.now c }
    ensures { Reads expression s.now c left rows.old rows.new result }
{
    expression::expression(Spot::<Line>::new(s, c), left, rows)
}

// What was tried from `c` on may be missing.
#[tactic(auto, unfolding(crate::specs::Parts::optional))]
pub fn optional(c: Cursor, f: Read) -> Read
    ensures { result ≡ optional c f }
{
    match f {
        Err(Stop::Miss(met)) => Ok(Cursor { met, ..c }),
        read => read,
    }
}

// The row around all that was read from `c` on, whose trivia ended at `k`, if its last part was read.
pub fn whole<K: HasNumber + Copy>(c: Cursor, k: Skip, f: Read, kind: K, rows: &mut [u32]) -> Read
    requires { Closable c k f }
    ensures { Whole (K.number kind) c k f rows.old rows.new result }
{
    let e = f?;
    Ok(mark::around(c, k.at, e, kind, 0, rows))
}
