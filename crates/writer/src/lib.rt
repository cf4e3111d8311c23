// The writer: a token list over its statement, as text. In the Rust, writer.rs; document 01, "writer.rs".
// The whole text is measured first, and the lent buffer is filled only if it fits.
#![tactic(auto)]

ghost use Rattle.std.specs.Prelude.{◌≡◌, ◌≤◌, length};
ghost use Rattle.tokens.specs.Answers.{limit};
ghost use Rattle.tokens.specs.Slots.{room, tokens_in};
ghost use Rattle.tokens.specs.Formed.{first_place, malformed};
ghost use Rattle.writer.specs.Written.{written, onto};
ghost use Rattle.writer.specs.Promise.{Writes};

use crate::copy::Page;
use crate::survey::{refusal_at, survey};
use crate::token::{put_token, token_len};
use tokens::check::{check_count, check_text};
use tokens::place::Place;
use tokens::refusal::Refusal;
use tokens::slot::slot_at;

pub mod copy;
pub mod cut;
pub mod survey;
pub mod token;

// The length of the whole text.
// Stays: the C interface lends `slots` and `count` apart; a struct of both would be no plainer, as `write` gets its fact from `check_count`.
pub fn measure(text: &[u8], slots: &[u32], count: usize) -> usize
    requires { (length text.now ≤ limit) × (count ≤ limit) × (count ≤ room slots.now) }
    ensures { result ≡ length (written text.now (tokens_in slots.now count)) }
{
    let mut total = 0;
    for i in 0..count {
        total += token_len(text, slot_at(slots, Place(i)));
    }
    total
}

// The whole text, laid over the front of the buffer.
pub fn fill(text: &[u8], slots: &[u32], count: usize, out: &mut [u8])
    requires count_bound { (count ≤ room slots.now) × (count ≤ first_place malformed (tokens_in slots.now count)) }
    requires count_in_bounds { length (written text.now (tokens_in slots.now count)) ≤ length out.old }
    ensures { out.new ≡ onto (written text.now (tokens_in slots.now count)) out.old }
{
    let mut page = Page { out, at: 0 };
    for i in 0..count {
        put_token(&mut page, text, slot_at(slots, Place(i)));
    }
}

// Writes a token list over its statement: refusals 1, 2, 4, 5, 6, 7 in that order, each over the whole list before the next.
pub fn write(text: &[u8], slots: &[u32], count: usize, out: &mut [u8]) -> Result<usize, Refusal>
    ensures { Writes text.now slots.now count out.old result out.new }
{
    check_text(text)?;
    check_count(slots, count)?;
    let total = survey(text, slots, count).map_err(|fault| refusal_at(
        text,
        slots,
        count,
        fault.place,
    ))?;
    if out.len() < total {
        return Err(Refusal::NoRoomOut(total));
    }
    fill(text, slots, count, out);
    Ok(total)
}
