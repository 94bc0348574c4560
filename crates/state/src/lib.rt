// The state that a failed attempt leaves changed, what a reader with the state answers, and reports. The relation between an answer and the
// written reading is in specs/, the laws that put such relations together in proofs/.
#![tactic(auto)]

ghost use Rattle.std.specs.Prelude.{◌≡◌, ◌^◌, ◌<◌};
ghost use Rattle.state.specs.Codes.{code_number};
ghost use Rattle.state.specs.Acts.{Reported, Noted, Requested};

use cursor::{Cursor, Stop};
use reading::HasNumber;
use table::Pos;

// The last scope number, the flag that swallows the next error, and how many errors and requests there are.
#[derive(Clone, Copy)]
pub struct State {
    pub scope: usize,
    pub swallow: bool,
    pub errors: usize,
    pub requests: usize,
}

// The tables that a reader is lent.
#[derive(Drop)]
pub struct Tables<'a> {
    pub rows: &'a mut [u32],
    pub errors: &'a mut [u32],
    pub requests: &'a mut [u32],
}

// What an error says, in the words of its message. The error table holds the number.
#[derive(Clone, Copy, Debug, PartialEq, Eq)]
pub enum ErrorCode {
    UnterminatedComment = 1,
    UnexpectedText,
    ExpectedExpression,
    ExpectedConfigurationObject,
    ExpectedClosingDelimiter,
}

impl HasNumber for ErrorCode {
    ghost number = { code_number };

    fn number(&self) -> u32 {
        *self as u32
    }
}

// The answer of a reader with the state: it fits, and ends here in this state. An attempt leaves the state too.
pub type Done = Result<(Cursor, State), Stop<State>>;

// report_error: an error that meets the flag clears it and is lost.
pub fn report<C: HasNumber + Copy>(
    st: State,
    code: C,
    low: Pos,
    high: Pos,
    errors: &mut [u32],
) -> State
    requires { (low.0 < 2 ^ 32) × (high.0 < 2 ^ 32) × (st.errors < 2 ^ 32) }
    ensures { Reported (record { code = C.number code; low = low.0; high = high.0 }) st result errors.old errors.new }
{
    let n = st.errors;
    if st.swallow {
        return State {
            swallow: false,
            ..st
        };
    }
    table::push_error(errors, n, code.number() as usize, low, high);
    State {
        swallow: false,
        errors: n + 1,
        ..st
    }
}

// The report of an open comment, if one was met, in a text that ends here. The flag is set afterwards.
pub fn note(st: State, met: bool, end: Pos, errors: &mut [u32]) -> State
    requires { (end.0 < 2 ^ 32) × (st.errors < 2 ^ 32) }
    ensures { Noted end.0 met st result errors.old errors.new }
{
    if !met {
        return st;
    }
    let reported = report(st, ErrorCode::UnterminatedComment, end, end, errors);
    State {
        swallow: true,
        ..reported
    }
}

// A file to import: the places of its name.
pub fn request(st: State, low: Pos, high: Pos, requests: &mut [u32]) -> State
    requires { (low.0 < 2 ^ 32) × (high.0 < 2 ^ 32) × (st.requests < 2 ^ 32) }
    ensures { Requested (record { low = low.0; high = high.0 }) st result requests.old requests.new }
{
    let n = st.requests;
    table::push_request(requests, n, low, high);
    State {
        requests: n + 1,
        ..st
    }
}
