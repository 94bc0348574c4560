// The public calls for C and Rust, over numbers and slices. A call returns 0 for an answer, or the refusal's number; what else it says stands
// behind pointers.
#![tactic(auto)]

ghost use Rattle.std.specs.Prelude.{◌≡◌};
ghost use Rattle.reading.specs.Items.{trivia_items};
ghost use Rattle.reading.specs.Outcome.{outcome};
ghost use Rattle.reading.specs.Walk.{walk};
ghost use Rattle.parser.specs.Answers.{call};
ghost use Rattle.share.specs.Shares.{shares};
ghost use Rattle.share.specs.Words.{text_words};
ghost use Rattle.vireopatch.specs.Seen.{code_of, given_of, seen, exported, base_numbered, value_in, seen_value, exported_value, seen_items, exported_items, seen_walk, exported_walk, seen_shares, exported_shares, seen_words, exported_words};
ghost use Rattle.vireopatch.specs.Told.{told};

use number::{NumberType, ValueError};
use parser::Reading;
use reading::{HasNumber, Refusal};
use share::{Fraction, SharesFound, TextWords};
use table::{RowIndex, Subtree};

// 0 for an answer, or the refusal's number.
fn code_of<T, R: Refusal>(answer: &Result<T, R>) -> u32
    ensures { result ≡ code_of (told R.number R.gives answer.now) }
{
    match answer {
        Ok(_) => 0,
        Err(refusal) => refusal.number(),
    }
}

// 0 for an answer, or what the refusal gives.
fn given_of<T, R: Refusal>(answer: &Result<T, R>) -> usize
    ensures { result ≡ given_of (told R.number R.gives answer.now) }
{
    match answer {
        Ok(_) => 0,
        Err(refusal) => refusal.gives(),
    }
}

// Reads a text into three tables: refusals 1 to 8.
#[unsafe(no_mangle)]
pub extern "C" fn vireopatch_read(
    text: &[u8],
    scope: usize,
    swallow: bool,
    level: usize,
    rows: &mut [u32],
    errors: &mut [u32],
    requests: &mut [u32],
    row_count: &mut usize,
    error_count: &mut usize,
    request_count: &mut usize,
    end_scope: &mut usize,
    end_swallow: &mut bool,
    given: &mut usize,
) -> u32
    ensures { seen result rows.new errors.new requests.new row_count.new error_count.new request_count.new end_scope.new end_swallow.new given.new ≡ exported (outcome (call text.now scope swallow level rows.old errors.old requests.old)) }
{
    let answer = parser::read(text, scope, swallow, level, rows, errors, requests);
    let read = answer.unwrap_or(Reading {
        rows: 0,
        errors: 0,
        requests: 0,
        scope,
        swallow,
    });
    *row_count = read.rows;
    *error_count = read.errors;
    *request_count = read.requests;
    *end_scope = read.scope;
    *end_swallow = read.swallow;
    *given = given_of(&answer);
    code_of(&answer)
}

// The value of a number's text: refusals 10 and 9. Of a type that is none nothing is a number, so every text has refusal 10.
#[unsafe(no_mangle)]
pub extern "C" fn vireopatch_value(number_type: u32, text: &[u8], value: &mut u64) -> u32
    ensures { seen_value result value.new ≡ exported_value (value_in (base_numbered number_type) text.now) }
{
    let Ok(ty) = NumberType::try_from(number_type) else {
        *value = 0;
        return ValueError::NotANumber.number();
    };
    let answer = number::value(ty, text);
    *value = answer.unwrap_or(0);
    code_of(&answer)
}

// Lists the items of a trivia run: refusals 1, 2, 11 and 12.
#[unsafe(no_mangle)]
pub extern "C" fn vireopatch_items(
    text: &[u8],
    table: &mut [u32],
    count: &mut usize,
    given: &mut usize,
) -> u32
    ensures { seen_items result table.new count.new given.new ≡ exported_items (trivia_items text.now table.old) }
{
    let answer = trivia::items(text, table);
    *count = answer.unwrap_or(0);
    *given = given_of(&answer);
    code_of(&answer)
}

// From a row count to the last subtree: refusal 13.
#[unsafe(no_mangle)]
pub extern "C" fn vireopatch_walk(
    rows: &[u32],
    count: usize,
    root: &mut usize,
    before: &mut usize,
    given: &mut usize,
) -> u32
    ensures { seen_walk result root.new before.new given.new ≡ exported_walk (walk rows.now count) }
{
    let answer = table::walk(rows, count);
    let subtree = answer.unwrap_or(Subtree {
        root: RowIndex(0),
        before: 0,
    });
    *root = subtree.root.0;
    *before = subtree.before;
    *given = given_of(&answer);
    code_of(&answer)
}

// The share of trivia of up to 1,000 texts, and the three largest: refusals 27 and 28.
#[unsafe(no_mangle)]
pub extern "C" fn vireopatch_shares(
    words: &[u32],
    numerator: &mut u64,
    denominator: &mut u64,
    count: &mut usize,
    first: &mut usize,
    second: &mut usize,
    third: &mut usize,
    given: &mut usize,
) -> u32
    ensures { seen_shares result numerator.new denominator.new count.new first.new second.new third.new given.new ≡ exported_shares (shares words.now) }
{
    let answer = share::shares(words);
    let SharesFound { pooled, largest } = answer.unwrap_or(SharesFound {
        pooled: Fraction {
            numerator: 0,
            denominator: 0,
        },
        largest: [None; 3],
    });
    *numerator = pooled.numerator;
    *denominator = pooled.denominator;
    *count = largest.iter().filter(|i| i.is_some()).count();
    *first = largest[0].unwrap_or(0);
    *second = largest[1].unwrap_or(0);
    *third = largest[2].unwrap_or(0);
    *given = given_of(&answer);
    code_of(&answer)
}

// The two words of a text for `vireopatch_shares`, from its reading: refusals 13, 6 and 28.
#[unsafe(no_mangle)]
pub extern "C" fn vireopatch_text_words(
    text: &[u8],
    rows: &[u32],
    count: usize,
    roots: &mut [usize],
    trivia: &mut u32,
    length: &mut u32,
    given: &mut usize,
) -> u32
    ensures { seen_words result roots.new trivia.new length.new given.new ≡ exported_words (text_words text.now rows.now count roots.old) }
{
    let answer = share::text_words(text, rows, count, roots);
    let words = answer.unwrap_or(TextWords {
        trivia: 0,
        length: 0,
    });
    *trivia = words.trivia;
    *length = words.length;
    *given = given_of(&answer);
    code_of(&answer)
}
