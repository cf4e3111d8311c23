// The table of known texts: each fixed byte string beside its kind. Nothing reads it at run time: tools/guesses prints from it what the lookup runs on,
// laid.rt, and both are proved to be the definition's table (specs/Known.antt). A new row goes into both tables, and laid.rt is printed anew.
ghost use Rattle.std.specs.Prelude.{◌≡◌, map};
ghost use Rattle.words.specs.Known.{as_row, known};

use tokens::kind::Kind;

// A known text and its kind.
#[derive(Clone, Copy)]
pub struct Known(pub &'static [u8], pub Kind);

pub static KNOWN: [Known; 56] = [
    // Rule 9: the words.
    Known(b"in", Kind::In),
    Known(b"not", Kind::Not),
    Known(b"like", Kind::Like),
    Known(b"ilike", Kind::Ilike),
    Known(b"rlike", Kind::Rlike),
    Known(b"glob", Kind::Glob),
    Known(b"match", Kind::Match),
    Known(b"regexp", Kind::Regexp),
    Known(b"then", Kind::Then),
    Known(b"else", Kind::Else),
    Known(b"select", Kind::Select),
    Known(b"from", Kind::From),
    Known(b"where", Kind::Where),
    Known(b"and", Kind::And),
    Known(b"or", Kind::Or),
    Known(b"update", Kind::Update),
    Known(b"set", Kind::Set),
    Known(b"insert", Kind::Insert),
    Known(b"into", Kind::Into),
    Known(b"values", Kind::Values),
    Known(b"inner", Kind::Inner),
    Known(b"join", Kind::Join),
    Known(b"on", Kind::On),
    Known(b"limit", Kind::Limit),
    Known(b"offset", Kind::Offset),
    Known(b"between", Kind::Between),
    Known(b"array", Kind::Array),
    Known(b"binary", Kind::Binary),
    Known(b"date", Kind::Date),
    Known(b"time", Kind::Time),
    Known(b"timestamp", Kind::Timestamp),
    Known(b"x", Kind::X),
    Known(b"b", Kind::B),
    Known(b"n", Kind::N),
    Known(b"null", Kind::Null),
    Known(b"true", Kind::True),
    Known(b"false", Kind::False),
    // Rule 7: the runs.
    Known(b"<=>", Kind::NullSafeEqual),
    Known(b">=", Kind::GreaterThanOrEqual),
    Known(b"<=", Kind::LessThanOrEqual),
    Known(b"=>", Kind::EqualOrGreaterThan),
    Known(b"=<", Kind::EqualOrLessThan),
    Known(b"<>", Kind::EqualWithArrows),
    Known(b"!=", Kind::NotEqual),
    Known(b"==", Kind::Equal2),
    Known(b"=", Kind::Equal),
    Known(b">", Kind::GreaterThan),
    Known(b"<", Kind::LessThan),
    Known(b"<<", Kind::LeftShift),
    Known(b">>", Kind::RightShift),
    Known(b"&", Kind::BitwiseAnd),
    Known(b"|", Kind::BitwiseOr),
    Known(b"#>", Kind::SpecifiedPath),
    Known(b"#>>", Kind::SpecifiedPathAsText),
    // Rule 10: the beginnings of numbers.
    Known(b"0x", Kind::ZeroX),
    Known(b"0b", Kind::ZeroB),
];

// The table, which the proof holds to the definition's.
pub fn known_texts() -> &'static [Known; 56]
    ensures { map as_row result.now ≡ known }
{
    &KNOWN
}
