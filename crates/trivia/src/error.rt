// Why the items of a text are not listed.
ghost use Rattle.std.specs.Prelude.{◌≡◌};
ghost use Rattle.trivia.specs.Refusal.{number_of, gives_of};

use reading::{HasNumber, Refusal};

// How long the text is; where its first high byte stands; where no item starts; how many items there are.
#[derive(Clone, Copy, Debug, PartialEq, Eq)]
pub enum ItemsError {
    TooLong(usize),
    HighByte(usize),
    NoItem(usize),
    NoRoom(usize),
}

impl HasNumber for ItemsError {
    ghost number = { number_of };

    fn number(&self) -> u32 {
        match self {
            ItemsError::TooLong(_) => 1,
            ItemsError::HighByte(_) => 2,
            ItemsError::NoItem(_) => 11,
            ItemsError::NoRoom(_) => 12,
        }
    }
}

impl Refusal for ItemsError {
    ghost gives = { gives_of };

    fn gives(&self) -> usize {
        match *self {
            ItemsError::TooLong(n)
            | ItemsError::HighByte(n)
            | ItemsError::NoItem(n)
            | ItemsError::NoRoom(n) => n,
        }
    }
}
