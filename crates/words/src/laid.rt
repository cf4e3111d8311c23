// Printed by tools/guesses from table.rt: the table as the lookup keeps it. A text's length and first two letters are its key, which no other row of its
// section has.
// Stays: no plainer as one function: three tables that differ in their rows, each with a clause of its own.
#![tactic(auto, unfolding(crate::specs::Known::guess_of, crate::specs::Known::rows_of, crate::specs::Known::words, crate::specs::Known::runs, crate::specs::Known::zeros))]

ghost use Rattle.std.specs.Prelude.{◌≡◌};
ghost use Rattle.std.specs.Option.{option_map};
ghost use Rattle.words.specs.Known.{as_row, guess_of};

use crate::guess::Sort;
use crate::table::Known;
use tokens::kind::Kind;

// Rule 9: the words.
pub fn word_guess(key: u32) -> Option<Known>
    ensures { option_map as_row result ≡ guess_of Sort.Words key }
{
    match key {
        0x02696e => Some(Known(b"in", Kind::In)),
        0x036e6f => Some(Known(b"not", Kind::Not)),
        0x046c69 => Some(Known(b"like", Kind::Like)),
        0x05696c => Some(Known(b"ilike", Kind::Ilike)),
        0x05726c => Some(Known(b"rlike", Kind::Rlike)),
        0x04676c => Some(Known(b"glob", Kind::Glob)),
        0x056d61 => Some(Known(b"match", Kind::Match)),
        0x067265 => Some(Known(b"regexp", Kind::Regexp)),
        0x047468 => Some(Known(b"then", Kind::Then)),
        0x04656c => Some(Known(b"else", Kind::Else)),
        0x067365 => Some(Known(b"select", Kind::Select)),
        0x046672 => Some(Known(b"from", Kind::From)),
        0x057768 => Some(Known(b"where", Kind::Where)),
        0x03616e => Some(Known(b"and", Kind::And)),
        0x026f72 => Some(Known(b"or", Kind::Or)),
        0x067570 => Some(Known(b"update", Kind::Update)),
        0x037365 => Some(Known(b"set", Kind::Set)),
        0x06696e => Some(Known(b"insert", Kind::Insert)),
        0x04696e => Some(Known(b"into", Kind::Into)),
        0x067661 => Some(Known(b"values", Kind::Values)),
        0x05696e => Some(Known(b"inner", Kind::Inner)),
        0x046a6f => Some(Known(b"join", Kind::Join)),
        0x026f6e => Some(Known(b"on", Kind::On)),
        0x056c69 => Some(Known(b"limit", Kind::Limit)),
        0x066f66 => Some(Known(b"offset", Kind::Offset)),
        0x076265 => Some(Known(b"between", Kind::Between)),
        0x056172 => Some(Known(b"array", Kind::Array)),
        0x066269 => Some(Known(b"binary", Kind::Binary)),
        0x046461 => Some(Known(b"date", Kind::Date)),
        0x047469 => Some(Known(b"time", Kind::Time)),
        0x097469 => Some(Known(b"timestamp", Kind::Timestamp)),
        0x017800 => Some(Known(b"x", Kind::X)),
        0x016200 => Some(Known(b"b", Kind::B)),
        0x016e00 => Some(Known(b"n", Kind::N)),
        0x046e75 => Some(Known(b"null", Kind::Null)),
        0x047472 => Some(Known(b"true", Kind::True)),
        0x056661 => Some(Known(b"false", Kind::False)),
        _ => None,
    }
}

// Rule 7: the runs.
pub fn run_guess(key: u32) -> Option<Known>
    ensures { option_map as_row result ≡ guess_of Sort.Runs key }
{
    match key {
        0x033c3d => Some(Known(b"<=>", Kind::NullSafeEqual)),
        0x023e3d => Some(Known(b">=", Kind::GreaterThanOrEqual)),
        0x023c3d => Some(Known(b"<=", Kind::LessThanOrEqual)),
        0x023d3e => Some(Known(b"=>", Kind::EqualOrGreaterThan)),
        0x023d3c => Some(Known(b"=<", Kind::EqualOrLessThan)),
        0x023c3e => Some(Known(b"<>", Kind::EqualWithArrows)),
        0x02213d => Some(Known(b"!=", Kind::NotEqual)),
        0x023d3d => Some(Known(b"==", Kind::Equal2)),
        0x013d00 => Some(Known(b"=", Kind::Equal)),
        0x013e00 => Some(Known(b">", Kind::GreaterThan)),
        0x013c00 => Some(Known(b"<", Kind::LessThan)),
        0x023c3c => Some(Known(b"<<", Kind::LeftShift)),
        0x023e3e => Some(Known(b">>", Kind::RightShift)),
        0x012600 => Some(Known(b"&", Kind::BitwiseAnd)),
        0x017c00 => Some(Known(b"|", Kind::BitwiseOr)),
        0x02233e => Some(Known(b"#>", Kind::SpecifiedPath)),
        0x03233e => Some(Known(b"#>>", Kind::SpecifiedPathAsText)),
        _ => None,
    }
}

// Rule 10: the beginnings of numbers.
pub fn zero_guess(key: u32) -> Option<Known>
    ensures { option_map as_row result ≡ guess_of Sort.Zeros key }
{
    match key {
        0x023078 => Some(Known(b"0x", Kind::ZeroX)),
        0x023062 => Some(Known(b"0b", Kind::ZeroB)),
        _ => None,
    }
}
