// Hayrumble's public face: lib.rs in the Rust. A statement is read into tokens, the tokens are sanitised, and what is left is written as
// text; `sanitize_string` does the three in one call. Document 01, "Refusal numbers", says which call refuses what, in which order.
// Stays: wrappers and no `pub use`: what may not change: the theorems `lex_once`, `content_once` and others (crate demands) are of the functions here.
#![tactic(auto)]

ghost use Rattle.tokens.specs.Content.{HandsOut};
ghost use Rattle.lexer.specs.Lexes.{Lexes};
ghost use Rattle.sanitizer.specs.Promise.{Sanitizes};
ghost use Rattle.writer.specs.Promise.{Writes};
ghost use Rattle.sql_lexer.specs.Promise.{SanitizesString};

use chars::offset::Offset;
use lexer::lex::Lexed;
use sanitizer::sanitize_tokens;
use tokens::refusal::Refusal;
use writer::{fill, measure};

// What is told of a statement whose shape was written.
#[derive(Clone, Copy, PartialEq, Eq, Debug)]
pub struct Figures {
    pub tokens: usize,
    pub stop: Offset,
    pub exposed: usize,
    pub length: usize,
}

// The text of a token: the part of the statement itself between two offsets, empty where they are not within it.
pub fn buffer_content(text: &[u8], start: Offset, end: Offset) -> &[u8]
    ensures { HandsOut text.entry start.0 end.0 result }
{
    tokens::content::buffer_content(text, start, end)
}

// Reads a statement into slots: token count and stop offset. Refusals 1, 2, 3.
pub fn lex(text: &[u8], slots: &mut [u32]) -> Result<Lexed, Refusal>
    ensures { Lexes text.now slots.old result slots.new }
{
    lexer::lex::lex(text, slots)
}

// Sanitises the first `count` slots: the exposed count. Refusals 4, 5.
pub fn sanitize(slots: &mut [u32], count: usize) -> Result<usize, Refusal>
    ensures { Sanitizes slots.old count result slots.new }
{
    sanitizer::sanitize(slots, count)
}

// Writes the first `count` slots as text: its length. Refusals 1, 2, 4, 5, 6, 7.
pub fn write(text: &[u8], slots: &[u32], count: usize, out: &mut [u8]) -> Result<usize, Refusal>
    ensures { Writes text.now slots.now count out.old result out.new }
{
    writer::write(text, slots, count, out)
}

// The shape of a statement, and what is told of it. Refusals 1, 2, 3, 7; a shape that does not fit leaves the sanitised tokens in their slots.
// The tokens are our own reading's: they are well formed and cut no character, so neither is tested again.
pub fn sanitize_string(text: &[u8], slots: &mut [u32], out: &mut [u8]) -> Result<Figures, Refusal>
    ensures { SanitizesString text.now slots.old out.old result slots.new out.new }
{
    let Lexed { tokens, stop } = lexer::lex::lex(text, slots)?;
    let exposed = sanitize_tokens(slots, tokens);
    let length = measure(text, slots, tokens);
    if out.len() < length {
        return Err(Refusal::NoRoomOut(length));
    }
    fill(text, slots, tokens, out);
    Ok(Figures {
        tokens,
        stop,
        exposed,
        length,
    })
}
