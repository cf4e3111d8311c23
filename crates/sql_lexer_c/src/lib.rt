// The calls for Rust and C: the public face in numbers, which hayrumble_c exports. Nothing is decided here; an answer becomes the paper's
// numbers. In C, include/hayrumble.h.
#![tactic(auto)]

ghost use Rattle.std.specs.Prelude.{◌≡◌, List, ℕ, length};
ghost use Rattle.scans.specs.Ways.{pinned};
ghost use Rattle.lexer.specs.Lexes.{lex_answer, lex_buffer};
ghost use Rattle.sanitizer.specs.Promise.{sanitize_answer, sanitize_buffer};
ghost use Rattle.tokens.specs.Answers.{refusal};
ghost use Rattle.tokens.specs.Checks.{afterwards};
ghost use Rattle.tokens.specs.Slots.{room, tokens_in};
ghost use Rattle.writer.specs.Written.{written, onto};
ghost use Rattle.writer.specs.Promise.{write_answer};
ghost use Rattle.sql_lexer_c.specs.declared.HayAnswer.{HayAnswer};
ghost use Rattle.sql_lexer_c.specs.Row.{in_numbers, of_reading, of_sanitising, of_writing, of_shaping};
ghost use Rattle.sql_lexer.specs.Promise.{string_answer, string_slots, string_out};

use tokens::refusal::Refusal;

// An answer: a refusal, 1 to 7, and its detail; or refusal 0, and the numbers that the call answers with. A field that an answer
// does not have is 0.
// Stays: numbers for the refusals, and one struct for an answer and a refusal: C's answer, include/hayrumble.h.
#[repr(C)]
#[derive(Clone, Copy, Default)]
pub struct HayAnswer {
    pub refusal: u64,
    pub detail: u64,
    pub tokens: u64,
    pub stop: u64,
    pub exposed: u64,
    pub length: u64,
}

impl From<Refusal> for HayAnswer {
    ghost from_gives = { λ why answer. (row : List ℕ → HayAnswer) → answer ≡ in_numbers row (refusal why) };

    fn from(why: Refusal) -> HayAnswer {
        let (number, detail) = why.numbers();
        HayAnswer {
            refusal: u64::from(number),
            detail: detail as u64,
            ..HayAnswer::default()
        }
    }
}

pub fn hay_lex(text: &[u8], slots: &mut [u32]) -> HayAnswer
    ensures value { result ≡ in_numbers of_reading (lex_answer pinned text.now (room slots.old)) }
    ensures slots_after { slots.new ≡ lex_buffer pinned text.now slots.old }
{
    match sql_lexer::lex(text, slots) {
        Ok(lexed) => HayAnswer {
            tokens: lexed.tokens as u64,
            stop: lexed.stop.0 as u64,
            ..HayAnswer::default()
        },
        Err(why) => HayAnswer::from(why),
    }
}

pub fn hay_sanitize(slots: &mut [u32], count: usize) -> HayAnswer
    ensures value { result ≡ in_numbers of_sanitising (sanitize_answer slots.old count) }
    ensures slots_after { slots.new ≡ sanitize_buffer slots.old count }
{
    match sql_lexer::sanitize(slots, count) {
        Ok(exposed) => HayAnswer {
            exposed: exposed as u64,
            ..HayAnswer::default()
        },
        Err(why) => HayAnswer::from(why),
    }
}

pub fn hay_write(text: &[u8], slots: &[u32], count: usize, out: &mut [u8]) -> HayAnswer
    ensures value { result ≡ in_numbers of_writing (write_answer text.now slots.now count (length out.old)) }
    ensures out_after { out.new ≡ afterwards (write_answer text.now slots.now count (length out.old)) (onto (written text.now (tokens_in slots.now count)) out.old) out.old }
{
    match sql_lexer::write(text, slots, count, out) {
        Ok(length) => HayAnswer {
            length: length as u64,
            ..HayAnswer::default()
        },
        Err(why) => HayAnswer::from(why),
    }
}

pub fn hay_sanitize_string(text: &[u8], slots: &mut [u32], out: &mut [u8]) -> HayAnswer
    ensures value { result ≡ in_numbers of_shaping (string_answer pinned text.now (room slots.old) (length out.old)) }
    ensures slots_after { slots.new ≡ string_slots pinned text.now slots.old }
    ensures out_after { out.new ≡ string_out pinned text.now (room slots.old) out.old }
{
    match sql_lexer::sanitize_string(text, slots, out) {
        Ok(figures) => HayAnswer {
            tokens: figures.tokens as u64,
            stop: figures.stop.0 as u64,
            exposed: figures.exposed as u64,
            length: figures.length as u64,
            ..HayAnswer::default()
        },
        Err(why) => HayAnswer::from(why),
    }
}
