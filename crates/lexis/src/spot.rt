// A place behind trivia, at which a reader with a row is called.
ghost use Rattle.std.specs.Prelude.{⊤, Bool, ◌||◌, [], ◌∷◌, ◌≡◌, ◌≤◌, length, drop, Err};
ghost use Rattle.reading.specs.Byte.{begins};
ghost use Rattle.reading.specs.Grammar.{Parser, empty};
ghost use Rattle.reading.specs.Rules.{trivia, multiline_trivia};
ghost use Rattle.cursor.specs.Agree.{Ready};
ghost use Rattle.cursor.specs.Text.{Skips, cursor, skip};
ghost use Rattle.cursor.specs.declared.Stop.TheVariants.{Miss};
ghost use Rattle.cursor.proofs.Once.{skips_once};

use cursor::{Cursor, Read, Skip, Stop};
use std::alloc::AllocError;
use std::marker::PhantomData;
use table::Pos;

// What may stand before a token: whatever a parser takes.
pub trait Gap {
    ghost rule: { Parser };
}

// What is skipped before a token is looked for.
pub trait Skippable: Gap {
    fn skip(text: &[u8], at: Pos, met: bool) -> Skip
        requires { at.0 ≤ length text.now }
        ensures { Skips Self.rule text.now at.0 met result };
}

pub struct Nothing;

// Trivia of one line.
pub struct Line;

// Trivia with line ends in it.
pub struct Lines;

impl Gap for Nothing {
    ghost rule = { empty };
}

impl Skippable for Nothing {
    fn skip(_text: &[u8], at: Pos, met: bool) -> Skip {
        Skip { at, met }
    }
}

impl Gap for Line {
    ghost rule = { trivia };
}

impl Skippable for Line {
    fn skip(text: &[u8], at: Pos, met: bool) -> Skip {
        trivia::trivia(text, at, met)
    }
}

impl Gap for Lines {
    ghost rule = { multiline_trivia };
}

impl Skippable for Lines {
    fn skip(text: &[u8], at: Pos, met: bool) -> Skip {
        trivia::multiline_trivia(text, at, met)
    }
}

// The text, where reading began, and the end of what was skipped from there. A few more rows than the bytes pay for may stand before it.
pub struct Spot<'a, G: Gap> {
    pub text: &'a [u8],
    pub start: Cursor,
    pub end: Skip,
    pub gap: PhantomData<G>,
    pub ghost ready: { Ready 8 text.now start },
    pub ghost skips: { Skips G.rule text.now start.at.0 start.met end } by { skips_once G.rule text.now start.at.0 start.met end },
}

// By hand: a derive is refused for a struct with a ghost field and a type parameter.
impl<'a, G: Gap> Clone for Spot<'a, G> {
    ghost is_clone = { λ x y. y ≡ x };

    ghost is_infallible = { λ _. ⊤ };

    fn clone(&self) -> Result<Self, AllocError> {
        Ok(*self)
    }
}

impl<'a, G: Gap> Copy for Spot<'a, G> {}

// The methods are written out where they are called: a call copies the spot, and tables took 38 in a hundred longer.
impl<'a, G: Skippable> Spot<'a, G> {
    // Behind what is skipped from `start`.
    #[inline(always)]
    pub fn new(text: &'a [u8], start: Cursor) -> Self
        requires { Ready 8 text.now start }
        ensures text { result.text.now ≡ text.now }
        ensures start { result.start ≡ start }
    {
        let end = G::skip(text, start.at, start.met);
        Spot {
            text,
            start,
            end,
            gap: PhantomData,
        }
    }
}

impl<'a, G: Gap> Spot<'a, G> {
    // The same place, for an attempt behind one that missed at it.
    #[inline(always)]
    pub fn again(self) -> Self
        ensures text { result.text.now ≡ self.entry.text.now }
        ensures start { result.start ≡ cursor self.entry.start.at.0 self.entry.start.count.0 self.entry.end.met }
        ensures end { result.end ≡ self.entry.end }
    {
        Spot {
            text: self.text,
            start: Cursor {
                met: self.end.met,
                ..self.start
            },
            end: self.end,
            gap: PhantomData,
        }
    }

    // The same place, for an attempt behind one that missed and leaves this.
    #[inline(always)]
    pub fn after(self, met: bool) -> Self
        requires { (b : Bool) × (met ≡ self.start.met || b) }
        ensures text { result.text.now ≡ self.entry.text.now }
        ensures start { result.start ≡ cursor self.entry.start.at.0 self.entry.start.count.0 met }
        ensures end { result.end ≡ skip self.entry.end.at.0 (met || self.entry.end.met) }
    {
        Spot {
            text: self.text,
            start: Cursor { met, ..self.start },
            end: Skip {
                met: met | self.end.met,
                ..self.end
            },
            gap: PhantomData,
        }
    }

    // The byte stands here.
    #[inline(always)]
    pub fn is(self, b: u8) -> bool
        ensures { result ≡ begins (b ∷ []) (drop self.entry.end.at.0 self.entry.text.now) }
    {
        trivia::byte_is(self.text, self.end.at, b)
    }

    // What a reader answers that finds nothing here.
    #[inline(always)]
    pub fn miss(self) -> Read
        ensures { result ≡ Err (Miss self.entry.end.met) }
    {
        Err(Stop::Miss(self.end.met))
    }
}

// The end of the trivia, as a place of its own: there is none between.
#[inline(always)]
pub fn inside(p: Spot<Line>) -> Spot<Line>
    ensures text { result.text.now ≡ p.entry.text.now }
    ensures start { result.start ≡ cursor p.entry.end.at.0 p.entry.start.count.0 p.entry.end.met }
    ensures end { result.end ≡ p.entry.end }
{
    Spot {
        text: p.text,
        start: Cursor {
            at: p.end.at,
            met: p.end.met,
            ..p.start
        },
        end: p.end,
        gap: PhantomData,
    }
}
