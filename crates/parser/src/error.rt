// Why a text is not read.
ghost use Rattle.std.specs.Prelude.{◌≡◌};
ghost use Rattle.parser.specs.Refusal.{number_of, gives_of};

use reading::{HasNumber, Refusal};

// How long the text is; where its first high byte stands; the scope number, the level limit or how deep a reading may go; how many records it has.
#[derive(Clone, Copy, Debug, PartialEq, Eq)]
pub enum ReadError {
    TooLong(usize),
    HighByte(usize),
    ScopeTooLarge(usize),
    LevelTooLarge(usize),
    TooDeep(usize),
    NoRoomForRows(usize),
    NoRoomForErrors(usize),
    NoRoomForRequests(usize),
}

impl HasNumber for ReadError {
    ghost number = { number_of };

    fn number(&self) -> u32 {
        match self {
            ReadError::TooLong(_) => 1,
            ReadError::HighByte(_) => 2,
            ReadError::ScopeTooLarge(_) => 3,
            ReadError::LevelTooLarge(_) => 4,
            ReadError::TooDeep(_) => 5,
            ReadError::NoRoomForRows(_) => 6,
            ReadError::NoRoomForErrors(_) => 7,
            ReadError::NoRoomForRequests(_) => 8,
        }
    }
}

impl Refusal for ReadError {
    ghost gives = { gives_of };

    fn gives(&self) -> usize {
        match *self {
            ReadError::TooLong(n)
            | ReadError::HighByte(n)
            | ReadError::ScopeTooLarge(n)
            | ReadError::LevelTooLarge(n)
            | ReadError::TooDeep(n)
            | ReadError::NoRoomForRows(n)
            | ReadError::NoRoomForErrors(n)
            | ReadError::NoRoomForRequests(n) => n,
        }
    }
}
