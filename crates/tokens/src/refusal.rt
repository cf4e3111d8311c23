// Why a call is refused, with the detail. Document 01, "Refusal numbers"; specs/Answers.antt gives each its number.
ghost use Rattle.std.specs.Prelude.{◌≡◌, ◌≤◌};
ghost use Rattle.tokens.specs.declared.refusal.Refusal.TheVariants.{NotUtf8};

use crate::place::Place;
use chars::offset::Offset;
use chars::utf8::BadAt;

// The most bytes a text may have, and the most tokens a count may state.
pub const LIMIT: usize = 1_048_576;

#[derive(Clone, Copy, PartialEq, Eq, Debug)]
pub enum Refusal {
    // The text is over the limit: its length.
    TextTooLong(usize),
    // The text is not valid UTF-8: the first byte of its first bad sequence.
    NotUtf8(Offset),
    // Fewer whole slots than tokens: the tokens needed.
    NoRoomTokens(usize),
    // The stated count is over the limit or over the whole slots: the whole slots.
    BadCount(usize),
    // A slot is not well formed: the first such place.
    BadToken(Place),
    // A slice within the text starts or ends inside a character: the first such place.
    CutChar(Place),
    // The text to write is longer than the output: the bytes needed.
    NoRoomOut(usize),
}

impl From<BadAt> for Refusal {
    ghost from_gives = { λ bad why. why ≡ NotUtf8 bad.0 };

    fn from(bad: BadAt) -> Self {
        Refusal::NotUtf8(bad.0)
    }
}

impl Refusal {
    ghost use Rattle.tokens.specs.Answers.{refusal, refused};

    // Its number, 1 to 7, and its detail.
    pub fn numbers(self) -> (u8, usize)
        ensures number_bound { result.0 ≤ 7 }
        ensures value { refusal self ≡ refused result.0 result.1 }
    {
        match self {
            Refusal::TextTooLong(length) => (1, length),
            Refusal::NotUtf8(offset) => (2, offset.0),
            Refusal::NoRoomTokens(needed) => (3, needed),
            Refusal::BadCount(whole) => (4, whole),
            Refusal::BadToken(place) => (5, place.0),
            Refusal::CutChar(place) => (6, place.0),
            Refusal::NoRoomOut(needed) => (7, needed),
        }
    }
}
