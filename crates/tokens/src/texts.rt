// The fixed text of each kind, in capitals for words except `x 0x b 0b n`: fixed byte strings, copied out when tokens are written.
// In the Rust, the arms of writer.rs. They are tied to the table of specs/Texts.antt.
ghost use Rattle.std.specs.Prelude.{◌≡◌, List, ℕ, suc, map};
ghost use Rattle.std.specs.Borrow.{Bor};
ghost use Rattle.std.specs.List.{range_with_len};
ghost use Rattle.tokens.specs.Kinds as kinds;
ghost use Rattle.tokens.specs.Named.{number};
ghost use Rattle.tokens.specs.Texts.{text_of};

use crate::kind::Kind;

// How many kinds there are.
const KINDS: usize = Kind::Unknown as usize + 1;

// A row a kind, by the kinds' numbers, and empty for a kind that has none. A table and no `match`, which is compiled into a jump wherever its texts
// are compared or copied.
static TEXTS: [&[u8]; KINDS] = [
    // None
    b"",
    // Space
    b" ",
    // Newline
    b"\n",
    // Dot
    b".",
    // Comma
    b",",
    // Wildcard
    b"*",
    // ParentheseOpen
    b"(",
    // ParentheseClose
    b")",
    // SquareBracketOpen
    b"[",
    // SquareBracketClose
    b"]",
    // Colon
    b":",
    // Semicolon
    b";",
    // Placeholder
    b"?",
    // Ellipsis
    b"...",
    // Null
    b"NULL",
    // True
    b"TRUE",
    // False
    b"FALSE",
    // Multiply
    b"*",
    // Divide
    b"/",
    // Modulo
    b"%",
    // Plus
    b"+",
    // Minus
    b"-",
    // In
    b"IN",
    // Not
    b"NOT",
    // Like
    b"LIKE",
    // Ilike
    b"ILIKE",
    // Rlike
    b"RLIKE",
    // Glob
    b"GLOB",
    // Match
    b"MATCH",
    // Regexp
    b"REGEXP",
    // Then
    b"THEN",
    // Else
    b"ELSE",
    // Equal
    b"=",
    // Equal2
    b"==",
    // NullSafeEqual
    b"<=>",
    // GreaterThanOrEqual
    b">=",
    // LessThanOrEqual
    b"<=",
    // EqualOrGreaterThan
    b"=>",
    // EqualOrLessThan
    b"<=",
    // EqualWithArrows
    b"<>",
    // NotEqual
    b"!=",
    // GreaterThan
    b">",
    // LessThan
    b"<",
    // LeftShift
    b"<<",
    // RightShift
    b">>",
    // BitwiseAnd
    b"&",
    // BitwiseOr
    b"|",
    // SpecifiedPath
    b"#>",
    // SpecifiedPathAsText
    b"#>>",
    // Select
    b"SELECT",
    // From
    b"FROM",
    // Where
    b"WHERE",
    // And
    b"AND",
    // Or
    b"OR",
    // Update
    b"UPDATE",
    // Set
    b"SET",
    // Insert
    b"INSERT",
    // Into
    b"INTO",
    // Values
    b"VALUES",
    // Inner
    b"INNER",
    // Join
    b"JOIN",
    // On
    b"ON",
    // Limit
    b"LIMIT",
    // Offset
    b"OFFSET",
    // Between
    b"BETWEEN",
    // Array
    b"ARRAY",
    // Other
    b"",
    // Binary
    b"BINARY",
    // Date
    b"DATE",
    // Time
    b"TIME",
    // Timestamp
    b"TIMESTAMP",
    // X
    b"x",
    // ZeroX
    b"0x",
    // B
    b"b",
    // ZeroB
    b"0b",
    // N
    b"n",
    // Charset
    b"_",
    // Backticked
    b"`",
    // DoubleQuoted
    b"\"",
    // SingleQuoted
    b"'",
    // Numeric
    b"",
    // Comment
    b"",
    // NumberedPlaceholder
    b"",
    // Unknown
    b"",
];

// The table, which the proof holds to the definition's: the text of each kind from None to Unknown.
fn texts() -> &'static [&'static [u8]; KINDS]
    ensures { map (λ (text : Bor (List ℕ)). text.now) result.now ≡ map text_of (range_with_len kinds.None (suc kinds.Unknown)) }
{
    &TEXTS
}

impl Kind {
    // Empty for a kind that has none.
    #[inline(always)]
    pub fn text(self) -> &'static [u8]
        ensures { result.now ≡ text_of (number self) }
    {
        fixed_text(u32::from(self))
    }
}

// The fixed text of a kind by its number: empty for a number that no kind has.
// Stays: what may not change: `fixed_text`, which docs/PROMISES.md names, takes any number.
#[inline(always)]
pub fn fixed_text(kind: u32) -> &'static [u8]
    ensures { result.now ≡ text_of kind }
{
    let row = kind as usize;
    if row < KINDS { texts()[row] } else { b"" }
}
