// Places, row numbers, and the lent tables. All code has the widths of records and the columns of rows from here. The definition has the widths
// and the order of the words in crate reading (specs/Table), and the contracts say that both agree.
// Outside stay the width of an item of trivia (crate trivia) and the numbers in the C header, which
// library/compare holds to these.
#![tactic(auto)]

ghost use Rattle.std.specs.Prelude.{◌≡◌, ◌++◌, ℕ, ◌+◌, ◌*◌, ◌-◌, ◌^◌, ◌≤◌, ◌<◌, length, take};
ghost use Rattle.reading.specs.Table.{zeros, row_width, error_width, request_width};
ghost use Rattle.reading.specs.Walk.{walk};
ghost use Rattle.table.specs.Kinds.{kind_number};
ghost use Rattle.table.specs.Words.{pushed, replaced, row_record, error_record, request_record};
ghost use Rattle.table.specs.Answers.{told};

use reading::{HasNumber, Refusal};

pub mod column;

// A byte's place in the text, the Rust's Pos.
#[derive(Clone, Copy, Debug, PartialEq, Eq)]
pub struct Pos(pub usize);

// A row's number, counted from 0.
#[derive(Clone, Copy, Debug, PartialEq, Eq)]
pub struct RowIndex(pub usize);

// The kinds of rows: the cases of Token, of ExpressionFactor, and the other Located values, in the order of ast.rs. A row has the number.
#[derive(Clone, Copy, Debug, PartialEq, Eq)]
pub enum Kind {
    Align = 1,
    Assert,
    Braces,
    Config,
    ConfigPair,
    Data,
    Definition,
    Eof,
    Error,
    Expression,
    If,
    Import,
    File,
    Instruction,
    Label,
    Loop,
    MacroDefinition,
    MacroInvocation,
    ProgramCounterDefinition,
    Segment,
    Test,
    Text,
    Trace,
    VariableDefinition,
    Block = 30,
    Operand,
    String,
    Binary,
    Factor,
    CurrentPc,
    Parens,
    Call,
    Identifier,
    Number,
    StringFactor,
    Char,
    Word,
    Name,
    Path,
    Piece,
    Mnemonic,
    Register,
    Operator,
    NumberType,
    NumberText,
    Modifier,
    DataSize,
    VariableType,
    Encoding,
    ImportArgument,
    ConfigValue,
}

impl HasNumber for Kind {
    ghost number = { kind_number };

    fn number(&self) -> u32 {
        *self as u32
    }
}

// The words of a record.
pub const ROW: usize = 7;

pub const ERROR: usize = 3;

pub const REQUEST: usize = 2;

// A row with this number and of this kind, or with any other number for the kind, if the table has room for it. Its line is filled in later. The
// room is not worked out: a division by the width takes longer than the stores.
pub fn push_row<K: HasNumber + Copy>(
    rows: &mut [u32],
    n: RowIndex,
    kind: K,
    size: usize,
    tlow: Pos,
    low: Pos,
    high: Pos,
    detail: usize,
)
    requires { (n.0 < 2 ^ 32) × (size < 2 ^ 32) × (tlow.0 < 2 ^ 32) × (low.0 < 2 ^ 32) × (high.0 < 2 ^ 32) × (detail < 2 ^ 32) }
    ensures { rows.new ≡ pushed row_width rows.old n.0 (row_record (K.number kind) size tlow.0 low.0 high.0 detail) }
{
    let i = n.0 * ROW;
    if i + ROW <= rows.len() {
        rows[i] = kind.number();
        rows[i + column::SIZE] = size as u32;
        rows[i + column::TLOW] = tlow.0 as u32;
        rows[i + column::LOW] = low.0 as u32;
        rows[i + column::HIGH] = high.0 as u32;
        rows[i + column::DETAIL] = detail as u32;
        rows[i + column::LINE] = 0;
    }
}

// The places of a row anew.
pub fn place_row(rows: &mut [u32], n: RowIndex, tlow: Pos, low: Pos, high: Pos)
    requires { (tlow.0 < 2 ^ 32) × (low.0 < 2 ^ 32) × (high.0 < 2 ^ 32) }
    ensures { rows.new ≡ replaced rows.old n.0 tlow.0 low.0 high.0 }
{
    let n = n.0;
    if n < rows.len() / ROW {
        let i = n * ROW;
        rows[i + column::TLOW] = tlow.0 as u32;
        rows[i + column::LOW] = low.0 as u32;
        rows[i + column::HIGH] = high.0 as u32;
    }
}

// A record with this number, if the table has room for it.
pub fn push<const W: usize>(table: &mut [u32], n: usize, words: &[u32; W])
    requires { 0 < W }
    ensures { table.new ≡ pushed W table.old n words.now }
{
    if n < table.len() / W {
        let i = n * W;
        // Word by word, so that they stay in registers: a copy of the slice reads them back from memory, in other widths than they were written.
        for k in 0..W {
            table[i + k] = words[k];
        }
    }
}

// An error.
pub fn push_error(errors: &mut [u32], n: usize, code: usize, low: Pos, high: Pos)
    requires { (code < 2 ^ 32) × (low.0 < 2 ^ 32) × (high.0 < 2 ^ 32) }
    ensures { errors.new ≡ pushed error_width errors.old n (error_record code low.0 high.0) }
{
    push::<ERROR>(errors, n, &[code as u32, low.0 as u32, high.0 as u32]);
}

// A request.
pub fn push_request(requests: &mut [u32], n: usize, low: Pos, high: Pos)
    requires { (low.0 < 2 ^ 32) × (high.0 < 2 ^ 32) }
    ensures { requests.new ≡ pushed request_width requests.old n (request_record low.0 high.0) }
{
    push::<REQUEST>(requests, n, &[low.0 as u32, high.0 as u32]);
}

// Zero in every word from this one on.
pub fn zero(words: &mut [u32], from: usize)
    requires { from ≤ length words.old }
    ensures { words.new ≡ take from words.old ++ zeros (length words.old - from) }
{
    words[from..].fill(0);
}

// The last subtree: its root's number and the count of the rows before it.
#[derive(Clone, Copy, Debug, PartialEq, Eq)]
pub struct Subtree {
    pub root: RowIndex,
    pub before: usize,
}

// No subtree ends behind so many rows.
#[derive(Clone, Copy, Debug, PartialEq, Eq)]
pub struct NoSubtree(pub usize);

impl HasNumber for NoSubtree {
    ghost number = { λ _. 13 };

    fn number(&self) -> u32 {
        13
    }
}

impl Refusal for NoSubtree {
    ghost gives = { λ e. e.0 };

    fn gives(&self) -> usize {
        self.0
    }
}

// From a row count to the last subtree. Nothing is written.
pub fn walk(rows: &[u32], count: usize) -> Result<Subtree, NoSubtree>
    ensures { told result ≡ walk rows.now count }
{
    if count == 0 || rows.len() / ROW < count {
        return Err(NoSubtree(count));
    }
    let root = count - 1;
    let size = rows[root * ROW + column::SIZE] as usize;
    if size == 0 || count < size {
        return Err(NoSubtree(count));
    }
    Ok(Subtree {
        root: RowIndex(root),
        before: count - size,
    })
}
