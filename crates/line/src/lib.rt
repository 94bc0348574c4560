// The line of every row: 1 plus the line feeds of the text before its low. One pass over the rows fills the column in, some rows at a time, and it
// is linear. Rows come in the order in which their last bytes were read. Most begin on the line that the pass has reached, or ahead of it: that
// takes the bytes since the row before, and a block. A row that goes back starts from one that has its line and is near. The first row of its
// subtree mostly begins where it does; if not, as where line feeds stand before the name of a call, its first child is as near as any. The proofs
// ask of that row only that it has its line.
//
// Three forms cost instructions of a reading and bring nothing else, so they are not used: one function that makes a stretch, up to 3 in 1,000; line
// feeds as a `sum`, up to 4; both, and runs by `chunks`, up to 12. Rows are read at their words, as the definitions have them and as they are written.
#![tactic(auto)]

ghost use Rattle.std.specs.Prelude.{◌≡◌, List, ℕ, ◌+◌, ◌^◌, ◌≤◌, ◌<◌, length, IfSome};
ghost use Rattle.reading.specs.Table.{max_text, row_width, room, line};
ghost use Rattle.line.specs.Lines.{Level, Numbered, lined};
ghost use Rattle.line.specs.Marks.{On, Marked};

use table::column;

// How many bytes are looked at together for a line's end; contracts and bytes below have the number again.
const BLOCK: usize = 96;

// Line feeds are counted in steps of so many bytes ..
const STEP: usize = 32;

// .. and at most so many at once, since their number is a byte: a multiple of STEP below 256. A contract below has the number again.
const RUN: usize = 224;

// A place within so many bytes of a line's end is looked for on the next line.
const NEAR: usize = 16;

// Places that are known to stand on one line, from the first of them to the last.
#[derive(Clone, Copy)]
pub struct Stretch {
    pub from: usize,
    pub to: usize,
    pub line: u32,
}

// A place and its line.
#[derive(Clone, Copy)]
struct Mark {
    at: usize,
    line: u32,
}

// The line feeds from one place to another near it. Their number is a byte and nothing is jumped over, so that the compiler compares many at once.
fn feeds_near(text: &[u8], from: usize, to: usize) -> u8
    requires { (from ≤ to) × (to ≤ from + 224) × (to ≤ length text.now) }
    ensures { line text.now from + result ≡ line text.now to }
{
    let mut n: u8 = 0;
    for b in &text[from..to] {
        n += u8::from(*b == b'\n');
    }
    n
}

// The line feeds from one place to another. A turn takes up to RUN bytes, so this is no `for`.
fn line_feeds(text: &[u8], from: usize, to: usize) -> u32
    requires { (length text.now ≤ max_text) × (from ≤ to) }
    ensures { line text.now from + result ≡ line text.now to }
{
    let end = text.len().min(to);
    let mut n: u32 = 0;
    let mut i = from;
    // A turn counts a run, and the last one is shorter.
    while i < end {
        let stop = i + RUN.min(end - i);
        n += u32::from(feeds_near(text, i, stop));
        i = stop;
    }
    n
}

// How many bytes of the block from here on stand before its first line feed. Every byte is looked at, and the number is a byte, so that the
// compiler compares many at once and nothing is jumped over.
fn first_feed(text: &[u8], at: usize) -> usize
    requires { at + 96 ≤ length text.now }
    ensures { (result ≤ 96) × Level text.now at (at + result) }
{
    let mut first: u8 = 96;
    for (j, b) in text[at..at + BLOCK].iter().enumerate() {
        let found = if *b == b'\n' { j as u8 } else { 96 };
        first = first.min(found);
    }
    usize::from(first)
}

// A place on the same line, as far as its line feed or the block's end; the place itself where the text has no whole block any more.
fn clear_end(text: &[u8], at: usize) -> usize
    ensures { (at ≤ result) × Level text.now at result }
{
    if text.len() <= at || text.len() - at < BLOCK {
        return at;
    }
    at + first_feed(text, at)
}

// A place of the stretch from which whole steps lead to a place ahead, so that no bytes are left over to be compared one by one; its end where it
// is too short.
fn steps_from(before: Stretch, at: usize) -> usize
    requires { (before.from ≤ before.to) × (before.to ≤ at) }
    ensures { (before.from ≤ result) × (result ≤ before.to) }
{
    let back = (STEP - (at - before.to) % STEP) % STEP;
    if before.to - before.from < back {
        return before.to;
    }
    before.to - back
}

// The line feed at a place: 1 or 0.
fn feed(text: &[u8], at: usize) -> u32
    ensures { line text.now at + result ≡ line text.now (at + 1) }
{
    u32::from(at < text.len() && text[at] == b'\n')
}

// The stretch that begins behind another one.
fn next(text: &[u8], before: Stretch) -> Stretch
    requires { (length text.now ≤ max_text) × On text.now before × (before.to + 1 < 2 ^ 64) }
    ensures { On text.now result × (result.from ≡ before.to + 1) }
{
    let at = before.to + 1;
    Stretch {
        from: at,
        to: clear_end(text, at),
        line: before.line + feed(text, before.to),
    }
}

// The stretch that begins at a place ahead.
fn stretch_at(text: &[u8], before: Stretch, at: usize) -> Stretch
    requires { (length text.now ≤ max_text) × On text.now before × (before.to ≤ at) }
    ensures { On text.now result × (result.from ≡ at) }
{
    let from = steps_from(before, at);
    Stretch {
        from: at,
        to: clear_end(text, at),
        line: before.line + line_feeds(text, from, at),
    }
}

// A stretch with a place ahead. A place that is near is mostly on the next line, behind some blanks, and the stretch of that line has it.
fn ahead(text: &[u8], before: Stretch, at: usize) -> Stretch
    requires { (length text.now ≤ max_text) × On text.now before × (before.to < at) }
    ensures { On text.now result × (result.from ≤ at) × (at ≤ result.to) }
{
    if at - before.to <= NEAR {
        let following = next(text, before);
        if at <= following.to {
            return following;
        }
    }
    stretch_at(text, before, at)
}

// The first row of the last subtree of so many rows; where there is none, their number.
fn first_row(rows: &[u32], count: usize) -> usize {
    table::walk(rows, count).map_or(count, |s| s.before)
}

// The first child of row n, whose subtree begins with row `first`. Each row is passed by no row but its parent. A turn goes back by a subtree, so
// this is no `for`.
fn first_child(rows: &[u32], n: usize, first: usize) -> Option<usize>
    ensures { IfSome result (λ k. k < n) }
{
    let mut c = n;
    while first < c {
        let before = first_row(rows, c);
        if before <= first {
            return Some(c - 1);
        }
        if c <= before {
            return None;
        }
        c = before;
    }
    None
}

// A row before row n from which its line is soon counted. A row with no subtree that goes back is a closing brace that was supplied: the row behind
// it is its block's, which begins with the brace that it copies.
fn near(rows: &[u32], n: usize, low: usize) -> Option<usize>
    requires { n < room row_width rows.now }
    ensures { IfSome result (λ k. k < n) }
{
    let own = first_row(rows, n + 1);
    let first = if own < n { own } else { first_row(rows, n + 2) };
    if n <= first {
        return None;
    }
    if rows[first * table::ROW + column::LOW] as usize == low {
        return Some(first);
    }
    first_child(rows, n, first)
}

// The line of a place, counted from a mark ahead of it or behind it.
fn line_from(text: &[u8], mark: Mark, at: usize) -> u32
    requires { (length text.now ≤ max_text) × Marked text.now mark }
    ensures { result ≡ line text.now at }
{
    if mark.at <= at {
        return mark.line + line_feeds(text, mark.at, at);
    }
    mark.line - line_feeds(text, at, mark.at)
}

// The line of row n, which is on the stretch or goes back.
fn line_of(text: &[u8], rows: &[u32], n: usize, low: usize, here: Stretch) -> u32
    requires { (length text.now ≤ max_text) × On text.now here × (low ≤ here.to) × Numbered text.now rows.now n × (n < room row_width rows.now) }
    ensures { result ≡ line text.now low }
{
    if here.from <= low {
        return here.line;
    }
    let mark = match near(rows, n, low) {
        Some(k) => Mark {
            at: rows[k * table::ROW + column::LOW] as usize,
            line: rows[k * table::ROW + column::LINE],
        },
        None => Mark {
            at: here.from,
            line: here.line,
        },
    };
    line_from(text, mark, low)
}

// Fills in the line of the rows behind row n that begin on the stretch. The first that does not.
fn fill(rows: &mut [u32], n: usize, count: usize, here: Stretch) -> usize
    requires { (n < count) × (count ≤ room row_width rows.old) }
    ensures { (n < result) × (result ≤ count) × ((s t : List ℕ) → On s here → rows.old ≡ lined s t (n + 1) → rows.new ≡ lined s t result) }
{
    for m in n + 1..count {
        let low = rows[m * table::ROW + column::LOW] as usize;
        if here.to < low || low < here.from {
            return m;
        }
        rows[m * table::ROW + column::LINE] = here.line;
    }
    count
}

// The stretch at the start of a text.
pub fn start(text: &[u8]) -> Stretch
    ensures { On text.now result }
{
    Stretch {
        from: 0,
        to: clear_end(text, 0),
        line: 1,
    }
}

// Fills in the lines of the rows up to `count`, as far as there is room. The first ones have theirs; `reached` is the stretch to which the pass has
// come, and the answer the one to which it comes. A turn takes as many rows as begin on the stretch, so this is no `for`.
pub fn number(
    text: &[u8],
    rows: &mut [u32],
    first: usize,
    count: usize,
    reached: Stretch,
) -> Stretch
    requires { (length text.now ≤ max_text) × On text.now reached × (first ≤ count) × Numbered text.now rows.old first }
    ensures { On text.now result × (rows.new ≡ lined text.now rows.old count) }
{
    let end = count.min(rows.len() / table::ROW);
    let mut here = reached;
    let mut n = first;
    // A turn goes on behind the rows that `fill` filled in.
    while n < end {
        let low = rows[n * table::ROW + column::LOW] as usize;
        if here.to < low {
            here = ahead(text, here, low);
        }
        rows[n * table::ROW + column::LINE] = line_of(text, rows, n, low, here);
        n = fill(rows, n, end, here);
    }
    here
}
