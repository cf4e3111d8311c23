// The calls for Rust and C to link: those of sql_lexer_c under their names and with their clauses, as `extern "C"`. A static library of its
// own, since a crate is a library or a static library, and the program `replay` calls sql_lexer_c. In C, include/hayrumble.h.
#![tactic(auto)]

ghost use Rattle.std.specs.Prelude.{◌≡◌, List, ℕ, length};
ghost use Rattle.scans.specs.Ways.{pinned};
ghost use Rattle.lexer.specs.Lexes.{lex_answer, lex_buffer};
ghost use Rattle.sanitizer.specs.Promise.{sanitize_answer, sanitize_buffer};
ghost use Rattle.tokens.specs.Checks.{afterwards};
ghost use Rattle.tokens.specs.Slots.{room, tokens_in};
ghost use Rattle.writer.specs.Written.{written, onto};
ghost use Rattle.writer.specs.Promise.{write_answer};
ghost use Rattle.sql_lexer_c.specs.Row.{in_numbers, of_reading, of_sanitising, of_writing, of_shaping};
ghost use Rattle.sql_lexer.specs.Promise.{string_answer, string_slots, string_out};

use sql_lexer_c::HayAnswer;

#[unsafe(no_mangle)]
pub extern "C" fn hay_lex(text: &[u8], slots: &mut [u32]) -> HayAnswer
    ensures value { result ≡ in_numbers of_reading (lex_answer pinned text.now (room slots.old)) }
    ensures slots_after { slots.new ≡ lex_buffer pinned text.now slots.old }
{
    sql_lexer_c::hay_lex(text, slots)
}

#[unsafe(no_mangle)]
pub extern "C" fn hay_sanitize(slots: &mut [u32], count: usize) -> HayAnswer
    ensures value { result ≡ in_numbers of_sanitising (sanitize_answer slots.old count) }
    ensures slots_after { slots.new ≡ sanitize_buffer slots.old count }
{
    sql_lexer_c::hay_sanitize(slots, count)
}

#[unsafe(no_mangle)]
pub extern "C" fn hay_write(text: &[u8], slots: &[u32], count: usize, out: &mut [u8]) -> HayAnswer
    ensures value { result ≡ in_numbers of_writing (write_answer text.now slots.now count (length out.old)) }
    ensures out_after { out.new ≡ afterwards (write_answer text.now slots.now count (length out.old)) (onto (written text.now (tokens_in slots.now count)) out.old) out.old }
{
    sql_lexer_c::hay_write(text, slots, count, out)
}

#[unsafe(no_mangle)]
pub extern "C" fn hay_sanitize_string(text: &[u8], slots: &mut [u32], out: &mut [u8]) -> HayAnswer
    ensures value { result ≡ in_numbers of_shaping (string_answer pinned text.now (room slots.old) (length out.old)) }
    ensures slots_after { slots.new ≡ string_slots pinned text.now slots.old }
    ensures out_after { out.new ≡ string_out pinned text.now (room slots.old) out.old }
{
    sql_lexer_c::hay_sanitize_string(text, slots, out)
}
