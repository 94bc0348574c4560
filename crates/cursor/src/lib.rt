// What a reader takes and answers. The relation between its answer and the written reading is in specs/, the laws that put such relations
// together in proofs/.
#![tactic(auto)]

use table::{Pos, RowIndex};

// A place in the text, how many rows there are so far, and whether an open comment was met.
#[derive(Clone, Copy)]
pub struct Cursor {
    pub at: Pos,
    pub count: RowIndex,
    pub met: bool,
}

// Where trivia ends, and whether an open comment was met, now or before.
#[derive(Clone, Copy)]
pub struct Skip {
    pub at: Pos,
    pub met: bool,
}

// Why a reader has no answer: it does not fit, and this is what the attempt leaves; or it went deeper than the limit.
#[derive(Clone, Copy)]
pub enum Stop<M> {
    Miss(M),
    Deep,
}

// A reader's answer: it fits, and ends here. An attempt leaves whether an open comment was met.
pub type Read = Result<Cursor, Stop<bool>>;
