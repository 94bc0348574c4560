// Where comments end: block comments, which nest, and lines. Places are `Pos` between functions; in a loop a place is a number, since an index
// must be a local number.
ghost use Rattle.std.specs.Prelude.{◌≡◌, false, ◌+◌, ◌≤◌, ◌<◌, length, drop};
ghost use Rattle.reading.specs.Byte.{run};
ghost use Rattle.trivia.specs.Class.{in_line};
ghost use Rattle.trivia.specs.Piece.{closed, closes_at, either_at, Clear, Unmarked};

use crate::two_are;
use table::Pos;

// How many bytes are looked at together, of a text and of a line.
const BLOCK: usize = 64;

const SHORT: usize = 16;

// A closing mark starts in the block from here on. Every byte is looked at, so that the compiler compares many at once.
fn block_closes(s: &[u8], at: Pos) -> bool
    requires { at.0 + 64 < length s.now }
    ensures { result ≡ false → Clear (closes_at s.now) at.0 (at.0 + 64) }
{
    let mut found = false;
    for j in 0..BLOCK {
        found |= (s[at.0 + j] == b'*') & (s[at.0 + j + 1] == b'/');
    }
    found
}

// The end of the blocks from here on in which no closing mark starts. This and the other two loops over blocks are `while`s, since they go on by
// more than one. They differ in the step and in what is known where a block passes: as one function over a test they would be no shorter.
fn blocks_end(s: &[u8], at: Pos) -> Pos
    ensures { Clear (closes_at s.now) at.0 result.0 }
{
    let mut i = at.0;
    while BLOCK < s.len().saturating_sub(i) && !block_closes(s, Pos(i)) {
        i += BLOCK;
    }
    Pos(i)
}

// A closing mark starts from here on.
fn closes(s: &[u8], at: Pos) -> bool
    ensures { result ≡ false → Clear (closes_at s.now) at.0 (length s.now) }
{
    for i in blocks_end(s, at).0..s.len() {
        if two_are(s, Pos(i), b'*', b'/') {
            return true;
        }
    }
    false
}

// One of two bytes stands in the short block from here on.
fn block_has(s: &[u8], at: Pos, a: u8, b: u8) -> bool
    requires { at.0 + 16 ≤ length s.now }
    ensures { result ≡ false → Clear (either_at a b s.now) at.0 (at.0 + 16) }
{
    let mut found = false;
    for j in 0..SHORT {
        found |= (s[at.0 + j] == a) | (s[at.0 + j] == b);
    }
    found
}

// Where the first mark from here on may start. A slash that ends a block may belong to one, so blocks overlap by a byte.
fn starless_end(s: &[u8], at: Pos) -> Pos
    ensures { Unmarked s.now at.0 result.0 }
{
    let mut i = at.0;
    while SHORT <= s.len().saturating_sub(i) && !block_has(s, Pos(i), b'*', b'*') {
        i += SHORT - 1;
    }
    Pos(i)
}

// The end of the block comment, mark by mark. Comments nest, and no byte belongs to two marks. The inner loop goes to the next slash or star. It leaves
// both loops at the mark that closes the comment and at the text's end.
fn marks_end(s: &[u8], at: Pos) -> Option<Pos>
    ensures { result ≡ closed s.now at.0 }
{
    let last = s.len().saturating_sub(1);
    let mut open: usize = 0;
    let mut i = at.0;
    'marks: loop {
        i = starless_end(s, Pos(i)).0;
        loop {
            if last <= i {
                break 'marks None;
            }
            match (s[i], s[i + 1]) {
                (b'*', b'/') if open == 0 => break 'marks Some(Pos(i + 2)),
                (b'*', b'/') => {
                    open -= 1;
                    i += 2;
                    break;
                }
                (b'/', b'*') => {
                    open += 1;
                    i += 2;
                    break;
                }
                (b'*' | b'/', _) => {
                    i += 1;
                    break;
                }
                _ => i += 1,
            }
        }
    }
}

// The end of the block comment whose mark stands right before `at`. One that nothing closes is found open at once.
pub fn c_comment(s: &[u8], at: Pos) -> Option<Pos>
    ensures { result ≡ closed s.now at.0 }
{
    if closes(s, at) {
        marks_end(s, at)
    } else {
        None
    }
}

// The end of the blocks from here on in which no line ends; the line goes on there.
fn line_blocks(s: &[u8], at: Pos) -> Pos
    ensures { at.0 + run in_line (drop at.0 s.now) ≡ result.0 + run in_line (drop result.0 s.now) }
{
    let mut i = at.0;
    while SHORT <= s.len().saturating_sub(i) && !block_has(s, Pos(i), b'\n', b'\r') {
        i += SHORT;
    }
    Pos(i)
}

// The end of the line.
pub fn line_end(s: &[u8], at: Pos) -> Pos
    ensures { result.0 ≡ at.0 + run in_line (drop at.0 s.now) }
{
    let blocks = line_blocks(s, at).0;
    for i in blocks..s.len() {
        if (s[i] == b'\n') | (s[i] == b'\r') {
            return Pos(i);
        }
    }
    Pos(blocks.max(s.len()))
}
