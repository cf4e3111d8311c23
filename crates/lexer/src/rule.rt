// Which rule reads at an offset. Document 01, "lexer.rs": the first that fits.
// Stays: a text and an offset apart, here and in all below: what may not change: the clauses of `rule_at` count offsets into the whole text.
ghost use Rattle.std.specs.Prelude.{◌≡◌, ◌≤◌, ◌<◌, eqb, length, drop};
ghost use Rattle.chars.specs.Utf8.{chars};
ghost use Rattle.chars.specs.Class.{numeric};
ghost use Rattle.scans.specs.Ways.{pinned};
ghost use Rattle.lexer.specs.Rules.{head_is, star_kind, state_after, at_hash, at_dash, at_slash, others, rule_of};
ghost use Rattle.scans.specs.Whole.{Whole, Readable};
ghost use Rattle.lexer.specs.Read.{on_chars};

use chars::class::{is_alphabetic, is_numeric};
use chars::offset::Offset;
use chars::utf8::{Step, step_at};
use tokens::kind::Kind;

// Whether a `select` was read with no `from` since (rule 6).
#[derive(Clone, Copy)]
pub enum State {
    Default,
    PastSelect,
    PastFrom,
}

// The rules. A quoted text and a single character know their kind.
#[derive(Clone, Copy)]
pub enum Rule {
    Quoted(Kind),
    Line,
    Block,
    Single(Kind),
    Numbered,
    Run,
    Charset,
    Word,
    Number,
    Unknown,
}

// Rule 6: `*` by what was read before.
fn star_kind(state: State) -> Kind
    ensures { result ≡ star_kind state }
{
    match state {
        State::Default | State::PastFrom => Kind::Multiply,
        State::PastSelect => Kind::Wildcard,
    }
}

// The numbers of the kinds that a state hangs on.
// Stays: what may not change: `state_after`, which docs/PROMISES.md names, takes any number, as a token's slot has it.
const SELECT: u32 = Kind::Select as u32;

const FROM: u32 = Kind::From as u32;

pub fn state_after(kind: u32, state: State) -> State
    ensures { result ≡ state_after kind state }
{
    match kind {
        SELECT => State::PastSelect,
        FROM => State::PastFrom,
        _ => state,
    }
}

// Whether the ASCII character b stands at an offset.
fn stands(text: &[u8], at: Offset, b: u8) -> bool
    requires whole { Whole text.now at.0 }
    requires b_bound { b < 0x80 }
    ensures { result ≡ head_is (λ d. eqb d b) (chars (drop at.0 text.now)) }
{
    let i = at.0;
    i < text.len() && text[i] == b
}

// Whether a numeric stands at an offset.
fn numeric_stands(text: &[u8], at: Offset) -> bool
    ensures { result ≡ head_is numeric (chars (drop at.0 text.now)) }
{
    match step_at(text, at) {
        Step::Char(c, _) => is_numeric(c),
        Step::Bad | Step::End => false,
    }
}

// Rules 2 and 7 at `#`.
fn hash_rule(text: &[u8], next: Offset) -> Rule
    requires { Whole text.now next.0 }
    ensures { result ≡ at_hash (chars (drop next.0 text.now)) }
{
    if stands(text, next, b'>') {
        return Rule::Run;
    }
    Rule::Line
}

// Rules 2, 6 and 10 at `-`.
fn dash_rule(text: &[u8], next: Offset) -> Rule
    requires { Whole text.now next.0 }
    ensures { result ≡ at_dash pinned (chars (drop next.0 text.now)) }
{
    if stands(text, next, b'-') {
        return Rule::Line;
    }
    if numeric_stands(text, next) {
        return Rule::Number;
    }
    Rule::Single(Kind::Minus)
}

// Rules 3 and 6 at `/`.
fn slash_rule(text: &[u8], next: Offset) -> Rule
    requires { Whole text.now next.0 }
    ensures { result ≡ at_slash (chars (drop next.0 text.now)) }
{
    if stands(text, next, b'*') {
        return Rule::Block;
    }
    Rule::Single(Kind::Divide)
}

// Any ASCII character.
// Stays: no plainer with `mark_of` in front: an arm for each byte is what is read beside the Rust.
fn ascii_rule(text: &[u8], next: Offset, b: u8, state: State) -> Rule
    requires whole { Whole text.now next.0 }
    requires b_bound { b < 0x80 }
    ensures { result ≡ rule_of pinned state b (chars (drop next.0 text.now)) }
{
    match b {
        b'`' => Rule::Quoted(Kind::Backticked),
        b'\'' => Rule::Quoted(Kind::SingleQuoted),
        b'"' => Rule::Quoted(Kind::DoubleQuoted),
        b'#' => hash_rule(text, next),
        b'-' => dash_rule(text, next),
        b'/' => slash_rule(text, next),
        b' ' => Rule::Single(Kind::Space),
        b'\n' => Rule::Single(Kind::Newline),
        b'\r' => Rule::Single(Kind::Newline),
        b'.' => Rule::Single(Kind::Dot),
        b',' => Rule::Single(Kind::Comma),
        b'(' => Rule::Single(Kind::ParentheseOpen),
        b')' => Rule::Single(Kind::ParentheseClose),
        b'[' => Rule::Single(Kind::SquareBracketOpen),
        b']' => Rule::Single(Kind::SquareBracketClose),
        b':' => Rule::Single(Kind::Colon),
        b';' => Rule::Single(Kind::Semicolon),
        b'?' => Rule::Single(Kind::Placeholder),
        b'$' => Rule::Numbered,
        b'*' => Rule::Single(star_kind(state)),
        b'%' => Rule::Single(Kind::Modulo),
        b'+' => Rule::Single(Kind::Plus),
        b'=' => Rule::Run,
        b'!' => Rule::Run,
        b'>' => Rule::Run,
        b'<' => Rule::Run,
        b'&' => Rule::Run,
        b'|' => Rule::Run,
        b'_' => Rule::Charset,
        b'A'..=b'Z' => Rule::Word,
        b'a'..=b'z' => Rule::Word,
        b'0'..=b'9' => Rule::Number,
        _ => Rule::Unknown,
    }
}

// Any other character.
fn wide_rule(text: &[u8], at: Offset) -> Rule
    ensures { result ≡ on_chars Rule.Unknown (λ c cs. others pinned c) (chars (drop at.0 text.now)) }
{
    match step_at(text, at) {
        Step::Char(c, _) => class_rule(c),
        Step::Bad | Step::End => Rule::Unknown,
    }
}

// Rules 9, 10 and 11 for a character that no earlier rule takes.
fn class_rule(c: u32) -> Rule
    ensures { result ≡ others pinned c }
{
    if is_alphabetic(c) {
        return Rule::Word;
    }
    if c == 0x2D {
        return Rule::Number;
    }
    if is_numeric(c) {
        return Rule::Number;
    }
    Rule::Unknown
}

// The rule that reads at an offset.
pub fn rule_at(text: &[u8], at: Offset, state: State) -> Rule
    requires { Readable text.now at.0 }
    ensures { result ≡ on_chars Rule.Unknown (rule_of pinned state) (chars (drop at.0 text.now)) }
{
    let i = at.0;
    let b = text[i];
    if b < 0x80 {
        return ascii_rule(text, Offset(i + 1), b, state);
    }
    wide_rule(text, at)
}
