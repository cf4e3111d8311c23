// The sanitiser's table: its states, its 32 arms by number, and what each does. Document 01, "sanitizer.rs"; specs/Arms.antt has the arms in
// the order of the Rust's `match`. Here the kind is looked at first, and in its arm the state.
ghost use Rattle.std.specs.Prelude.{◌≡◌};
ghost use Rattle.tokens.specs.Named.{number};
ghost use Rattle.sanitizer.specs.Arms.{arm_of, arm};

use tokens::kind::Kind;

#[derive(Clone, Copy)]
pub enum State {
    Default,
    ComparisonOperator,
    InsertValues,
    InsertValuesJustClosed,
    JoinOn,
    Offset,
    Between,
    Keyword,
    KeywordScopeStarted,
    Array,
    ArrayStarted,
}

// What an arm does at a place.
// Stays: what may not change: an enum and no closure, as the table `rules` of specs/Arms.antt names for each arm what it does.
#[derive(Clone, Copy)]
pub enum Does {
    // Goes on in the same state.
    Stay,
    // Goes on in another.
    Go(State),
    // Puts a Placeholder.
    Replace,
    // Puts a Placeholder, unless a Dot stands before or after.
    ReplaceUnlessDotted,
    // Puts a Placeholder for all up to the next close.
    ReplaceToClose,
    // Puts an Ellipsis for all rows that follow, and passes over the token after them.
    CollapseRows,
    // Blanks, with a Space directly before.
    RemoveComment,
}

// An arm: its number, 1 to 32, and what it does.
// Stays: a number: what may not change: `arm` of specs/Arms.antt has the arms by their place in the Rust's `match`.
#[derive(Clone, Copy)]
pub struct Arm(pub usize, pub Does);

// The arm that decides for a kind in a state: the first of the 32 that takes it.
#[tactic(auto, unfolding(crate::specs::Arms::arm, crate::specs::Arms::does_of, crate::specs::Arms::rules, crate::specs::Arms::arm_of, tokens::specs::Kinds::is_operator, tokens::specs::Kinds::is_keyword, tokens::specs::Kinds::is_indicator))]
pub fn choose(state: State, kind: Kind) -> Arm
    ensures { result ≡ arm (arm_of state (number kind)) }
{
    match kind {
        // Operator(_).
        Kind::In => Arm(1, Does::Go(State::Keyword)),
        Kind::Multiply
        | Kind::Divide
        | Kind::Modulo
        | Kind::Plus
        | Kind::Minus
        | Kind::Not
        | Kind::Like
        | Kind::Ilike
        | Kind::Rlike
        | Kind::Glob
        | Kind::Match
        | Kind::Regexp
        | Kind::Then
        | Kind::Else
        | Kind::Equal
        | Kind::Equal2
        | Kind::NullSafeEqual
        | Kind::GreaterThanOrEqual
        | Kind::LessThanOrEqual
        | Kind::EqualOrGreaterThan
        | Kind::EqualOrLessThan
        | Kind::EqualWithArrows
        | Kind::NotEqual
        | Kind::GreaterThan
        | Kind::LessThan
        | Kind::LeftShift
        | Kind::RightShift
        | Kind::BitwiseAnd
        | Kind::BitwiseOr
        | Kind::SpecifiedPath
        | Kind::SpecifiedPathAsText => match state {
            State::JoinOn => Arm(2, Does::Go(State::Default)),
            _ => Arm(3, Does::Go(State::ComparisonOperator)),
        },
        // Keyword(_).
        Kind::Values => Arm(4, Does::Go(State::InsertValues)),
        Kind::On => Arm(5, Does::Go(State::JoinOn)),
        Kind::Offset => Arm(6, Does::Go(State::Offset)),
        Kind::Between => Arm(7, Does::Go(State::Between)),
        Kind::Array => Arm(8, Does::Go(State::Array)),
        Kind::And => match state {
            State::Between => Arm(9, Does::Stay),
            _ => Arm(10, Does::Go(State::ComparisonOperator)),
        },
        Kind::Or => Arm(10, Does::Go(State::ComparisonOperator)),
        Kind::Insert | Kind::Into => Arm(11, Does::Stay),
        Kind::Limit | Kind::From => Arm(12, Does::Go(State::Default)),
        Kind::Where => Arm(13, Does::Go(State::ComparisonOperator)),
        Kind::Other => match state {
            State::KeywordScopeStarted => Arm(14, Does::Go(State::KeywordScopeStarted)),
            _ => Arm(15, Does::Go(State::Keyword)),
        },
        Kind::Select | Kind::Update | Kind::Set | Kind::Inner | Kind::Join => match state {
            State::KeywordScopeStarted => Arm(14, Does::Go(State::KeywordScopeStarted)),
            State::InsertValues => Arm(31, Does::Stay),
            _ => Arm(32, Does::Go(State::Default)),
        },
        // LiteralValueTypeIndicator(_).
        Kind::Binary
        | Kind::Date
        | Kind::Time
        | Kind::Timestamp
        | Kind::X
        | Kind::ZeroX
        | Kind::B
        | Kind::ZeroB
        | Kind::N
        | Kind::Charset => Arm(16, Does::Stay),
        // The four brackets.
        Kind::ParentheseOpen => match state {
            State::ComparisonOperator => Arm(17, Does::Go(State::ComparisonOperator)),
            State::Keyword => Arm(18, Does::Go(State::KeywordScopeStarted)),
            State::InsertValues => Arm(19, Does::Stay),
            State::InsertValuesJustClosed => Arm(23, Does::CollapseRows),
            State::KeywordScopeStarted => Arm(31, Does::Stay),
            _ => Arm(32, Does::Go(State::Default)),
        },
        Kind::SquareBracketOpen => match state {
            State::Array => Arm(20, Does::Go(State::ArrayStarted)),
            State::InsertValues | State::KeywordScopeStarted => Arm(31, Does::Stay),
            _ => Arm(32, Does::Go(State::Default)),
        },
        Kind::ParentheseClose => match state {
            State::InsertValues => Arm(21, Does::Go(State::InsertValuesJustClosed)),
            _ => Arm(24, Does::Go(State::Default)),
        },
        Kind::SquareBracketClose => Arm(24, Does::Go(State::Default)),
        // Marks.
        Kind::Comma => match state {
            State::InsertValuesJustClosed => Arm(22, Does::Stay),
            State::InsertValues | State::KeywordScopeStarted => Arm(31, Does::Stay),
            _ => Arm(32, Does::Go(State::Default)),
        },
        Kind::Dot => match state {
            State::JoinOn => Arm(25, Does::Stay),
            State::InsertValues | State::KeywordScopeStarted => Arm(31, Does::Stay),
            _ => Arm(32, Does::Go(State::Default)),
        },
        Kind::Space | Kind::None => Arm(30, Does::Stay),
        // Values.
        Kind::SingleQuoted | Kind::Numeric | Kind::Null | Kind::True | Kind::False => match state {
            State::ComparisonOperator | State::InsertValues | State::Offset | State::Between => Arm(
                26,
                Does::Replace,
            ),
            State::ArrayStarted | State::KeywordScopeStarted => Arm(28, Does::ReplaceToClose),
            _ => Arm(32, Does::Go(State::Default)),
        },
        Kind::DoubleQuoted => match state {
            State::ComparisonOperator | State::InsertValues | State::Offset | State::Between => Arm(
                27,
                Does::ReplaceUnlessDotted,
            ),
            State::ArrayStarted | State::KeywordScopeStarted => Arm(28, Does::ReplaceToClose),
            _ => Arm(32, Does::Go(State::Default)),
        },
        Kind::NumberedPlaceholder => match state {
            State::ArrayStarted | State::KeywordScopeStarted => Arm(28, Does::ReplaceToClose),
            State::InsertValues => Arm(31, Does::Stay),
            _ => Arm(32, Does::Go(State::Default)),
        },
        Kind::Comment => Arm(29, Does::RemoveComment),
        // All others.
        Kind::Newline
        | Kind::Wildcard
        | Kind::Colon
        | Kind::Semicolon
        | Kind::Placeholder
        | Kind::Ellipsis
        | Kind::Backticked
        | Kind::Unknown => match state {
            State::InsertValues | State::KeywordScopeStarted => Arm(31, Does::Stay),
            _ => Arm(32, Does::Go(State::Default)),
        },
    }
}
