// The reader over a row table, and the top rows of a whole reading, first to last.
// The work is `table::walk`'s.
#![tactic(auto)]

ghost use Rattle.std.specs.Prelude.{◌≡◌, ◌≤◌, length, take};
ghost use Rattle.reading.specs.Table.{answered};
ghost use Rattle.reading.specs.Walk.{walk};
ghost use Rattle.table.specs.Answers.{told};
ghost use Rattle.rows.specs.Answers.{told_count, told_tops, listed, number_of, gives_of};
ghost use Rattle.rows.specs.declared.TopsError.TheVariants.{NoSubtree};
ghost use Rattle.rows.specs.Tops.{top_rows, how_many, tops_listed};

use reading::{HasNumber, Refusal};
use table::{NoSubtree, Subtree};

// A row table, and how many of its rows are ahead: a walk goes from the last of them to the first.
#[derive(Clone, Copy)]
pub struct Reader<'a> {
    pub words: &'a [u32],
    pub count: usize,
}

impl<'a> Reader<'a> {
    pub fn new(words: &'a [u32], count: usize) -> Reader<'a>
        ensures { (result.words ≡ words.entry) × (result.count ≡ count) }
    {
        Reader { words, count }
    }

    // The last subtree of the rows ahead.
    pub fn last_subtree(self) -> Result<Subtree, NoSubtree>
        ensures { told result ≡ walk self.entry.words.now self.entry.count }
    {
        table::walk(self.words, self.count)
    }

    // The same table at another count.
    pub fn moved(self, count: usize) -> Reader<'a>
        ensures { (result.words ≡ self.entry.words) × (result.count ≡ count) }
    {
        Reader { count, ..self }
    }
}

// That of a reader made here.
pub fn last_subtree(words: &[u32], count: usize) -> Result<Subtree, NoSubtree>
    ensures { told result ≡ walk words.now count }
{
    Reader::new(words, count).last_subtree()
}

// How many top rows there are, from the last one to the first. A turn goes back by a subtree, here and in `fill`, so neither is a `for`.
pub fn top_count(words: &[u32], count: usize) -> Result<usize, NoSubtree>
    ensures { told_count result ≡ how_many (top_rows words.now count) }
{
    let mut left = count;
    let mut n: usize = 0;
    while 0 < left {
        left = table::walk(words, left)?.before;
        n += 1;
    }
    Ok(n)
}

// The numbers of n top rows, the last one first, each in front of those already there. They were counted, so none is refused.
fn fill(words: &[u32], count: usize, n: usize, roots: &mut [usize])
    requires { (how_many (top_rows words.now count) ≡ answered n) × (n ≤ length roots.old) }
    ensures { top_rows words.now count ≡ answered (take n roots.new) }
{
    let mut left = count;
    let mut i = n;
    while 0 < left {
        let subtree = table::walk(words, left).unwrap();
        left = subtree.before;
        i -= 1;
        roots[i] = subtree.root.0;
    }
}

// Why top rows are not listed: at some count no subtree ends, or the lent table has fewer words than this, how many there are.
#[derive(Clone, Copy, Debug, PartialEq, Eq)]
pub enum TopsError {
    NoSubtree(NoSubtree),
    NoRoom(usize),
}

impl From<NoSubtree> for TopsError {
    ghost from_gives = { λ e r. r ≡ NoSubtree e };

    fn from(e: NoSubtree) -> TopsError {
        TopsError::NoSubtree(e)
    }
}

impl HasNumber for TopsError {
    ghost number = { number_of };

    fn number(&self) -> u32 {
        match self {
            TopsError::NoSubtree(e) => e.number(),
            TopsError::NoRoom(_) => 6,
        }
    }
}

impl Refusal for TopsError {
    ghost gives = { gives_of };

    fn gives(&self) -> usize {
        match self {
            TopsError::NoSubtree(e) => e.gives(),
            TopsError::NoRoom(n) => *n,
        }
    }
}

// The numbers of the top rows, first to last, and how many there are. They are counted first, since the first one stands at the table's start.
pub fn tops(words: &[u32], count: usize, roots: &mut [usize]) -> Result<usize, TopsError>
    ensures { listed (told_tops result) roots.new ≡ tops_listed words.now count roots.old }
{
    let n = top_count(words, count)?;
    if roots.len() < n {
        roots.fill(0);
        return Err(TopsError::NoRoom(n));
    }
    fill(words, count, n, roots);
    roots[n..].fill(0);
    Ok(n)
}
