// The kinds of items.
ghost use Rattle.std.specs.Prelude.{◌≡◌};
ghost use Rattle.trivia.specs.Kind.{item_number};

use reading::HasNumber;

// The numbers are what a table of items has.
#[derive(Clone, Copy, PartialEq, Eq)]
pub enum ItemKind {
    Whitespace = 1,
    Newline,
    BlockComment,
    LineComment,
    Unterminated,
}

impl HasNumber for ItemKind {
    ghost number = { item_number };

    fn number(&self) -> u32 {
        *self as u32
    }
}
