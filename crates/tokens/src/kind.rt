// The 84 kinds of token by name, in document 01's order ("Token slots") and by the Rust's enums (lib.rs). A slot holds a kind as its number.
// The bitwise and and or are BitwiseAnd and BitwiseOr, to tell them from the words.
ghost use Rattle.std.specs.Prelude.{◌≡◌};
ghost use Rattle.tokens.specs.Named.{number, ReadsAs};

#[derive(Clone, Copy, PartialEq, Eq, Debug)]
pub enum Kind {
    // None: used by the sanitiser to remove tokens.
    None = 0,
    // Generic tokens.
    Space = 1,
    Newline = 2,
    Dot = 3,
    Comma = 4,
    Wildcard = 5,
    ParentheseOpen = 6,
    ParentheseClose = 7,
    SquareBracketOpen = 8,
    SquareBracketClose = 9,
    Colon = 10,
    Semicolon = 11,
    // Placeholder and Ellipsis, put in by the sanitiser, and the values that are words.
    Placeholder = 12,
    Ellipsis = 13,
    Null = 14,
    True = 15,
    False = 16,
    // Operators: ArithmeticOperator.
    Multiply = 17,
    Divide = 18,
    Modulo = 19,
    Plus = 20,
    Minus = 21,
    // Operators: LogicalOperator.
    In = 22,
    Not = 23,
    Like = 24,
    Ilike = 25,
    Rlike = 26,
    Glob = 27,
    Match = 28,
    Regexp = 29,
    Then = 30,
    Else = 31,
    // Operators: ComparisonOperator.
    Equal = 32,
    Equal2 = 33,
    NullSafeEqual = 34,
    GreaterThanOrEqual = 35,
    LessThanOrEqual = 36,
    EqualOrGreaterThan = 37,
    EqualOrLessThan = 38,
    EqualWithArrows = 39,
    NotEqual = 40,
    GreaterThan = 41,
    LessThan = 42,
    // Operators: BitwiseOperator.
    LeftShift = 43,
    RightShift = 44,
    BitwiseAnd = 45,
    BitwiseOr = 46,
    // Operators: JsonOperator.
    SpecifiedPath = 47,
    SpecifiedPathAsText = 48,
    // Words: Keyword.
    Select = 49,
    From = 50,
    Where = 51,
    And = 52,
    Or = 53,
    Update = 54,
    Set = 55,
    Insert = 56,
    Into = 57,
    Values = 58,
    Inner = 59,
    Join = 60,
    On = 61,
    Limit = 62,
    Offset = 63,
    Between = 64,
    Array = 65,
    Other = 66,
    // Indicators: LiteralValueTypeIndicator.
    Binary = 67,
    Date = 68,
    Time = 69,
    Timestamp = 70,
    X = 71,
    ZeroX = 72,
    B = 73,
    ZeroB = 74,
    N = 75,
    Charset = 76,
    // Quoted, numbers, comments: the other kinds that carry offsets.
    Backticked = 77,
    DoubleQuoted = 78,
    SingleQuoted = 79,
    Numeric = 80,
    Comment = 81,
    NumberedPlaceholder = 82,
    // Unknown: carries its character.
    Unknown = 83,
}

// A number that no kind has.
#[derive(Clone, Copy, PartialEq, Eq, Debug)]
pub struct NoKind(pub u32);

impl From<Kind> for u32 {
    ghost from_gives = { λ kind n. n ≡ number kind };

    fn from(kind: Kind) -> u32 {
        kind as u32
    }
}

impl TryFrom<u32> for Kind {
    type Error = NoKind;

    ghost try_from_gives = { λ n kind. ReadsAs n kind };

    fn try_from(number: u32) -> Result<Kind, NoKind> {
        let kind = match number {
            0 => Kind::None,
            1 => Kind::Space,
            2 => Kind::Newline,
            3 => Kind::Dot,
            4 => Kind::Comma,
            5 => Kind::Wildcard,
            6 => Kind::ParentheseOpen,
            7 => Kind::ParentheseClose,
            8 => Kind::SquareBracketOpen,
            9 => Kind::SquareBracketClose,
            10 => Kind::Colon,
            11 => Kind::Semicolon,
            12 => Kind::Placeholder,
            13 => Kind::Ellipsis,
            14 => Kind::Null,
            15 => Kind::True,
            16 => Kind::False,
            17 => Kind::Multiply,
            18 => Kind::Divide,
            19 => Kind::Modulo,
            20 => Kind::Plus,
            21 => Kind::Minus,
            22 => Kind::In,
            23 => Kind::Not,
            24 => Kind::Like,
            25 => Kind::Ilike,
            26 => Kind::Rlike,
            27 => Kind::Glob,
            28 => Kind::Match,
            29 => Kind::Regexp,
            30 => Kind::Then,
            31 => Kind::Else,
            32 => Kind::Equal,
            33 => Kind::Equal2,
            34 => Kind::NullSafeEqual,
            35 => Kind::GreaterThanOrEqual,
            36 => Kind::LessThanOrEqual,
            37 => Kind::EqualOrGreaterThan,
            38 => Kind::EqualOrLessThan,
            39 => Kind::EqualWithArrows,
            40 => Kind::NotEqual,
            41 => Kind::GreaterThan,
            42 => Kind::LessThan,
            43 => Kind::LeftShift,
            44 => Kind::RightShift,
            45 => Kind::BitwiseAnd,
            46 => Kind::BitwiseOr,
            47 => Kind::SpecifiedPath,
            48 => Kind::SpecifiedPathAsText,
            49 => Kind::Select,
            50 => Kind::From,
            51 => Kind::Where,
            52 => Kind::And,
            53 => Kind::Or,
            54 => Kind::Update,
            55 => Kind::Set,
            56 => Kind::Insert,
            57 => Kind::Into,
            58 => Kind::Values,
            59 => Kind::Inner,
            60 => Kind::Join,
            61 => Kind::On,
            62 => Kind::Limit,
            63 => Kind::Offset,
            64 => Kind::Between,
            65 => Kind::Array,
            66 => Kind::Other,
            67 => Kind::Binary,
            68 => Kind::Date,
            69 => Kind::Time,
            70 => Kind::Timestamp,
            71 => Kind::X,
            72 => Kind::ZeroX,
            73 => Kind::B,
            74 => Kind::ZeroB,
            75 => Kind::N,
            76 => Kind::Charset,
            77 => Kind::Backticked,
            78 => Kind::DoubleQuoted,
            79 => Kind::SingleQuoted,
            80 => Kind::Numeric,
            81 => Kind::Comment,
            82 => Kind::NumberedPlaceholder,
            83 => Kind::Unknown,
            _ => return Err(NoKind(number)),
        };
        Ok(kind)
    }
}
