// One pass over a token list that settles refusals 5 and 6 and measures the text: each pass more costs its nanoseconds at every token.
ghost use Rattle.std.specs.Prelude.{◌≡◌, ◌≤◌, ◌<◌, length};
ghost use Rattle.tokens.specs.Answers.{limit, refusal};
ghost use Rattle.tokens.specs.Checks.{◌then◌, check_form};
ghost use Rattle.tokens.specs.Slots.{room, tokens_in};
ghost use Rattle.tokens.specs.Formed.{first_place};
ghost use Rattle.writer.specs.Promise.{check_cuts};
ghost use Rattle.writer.specs.Survey.{faulty, Surveyed};

use crate::cut::is_cut;
use crate::token::token_len;
use tokens::formed::{carries_offsets, first_malformed, is_well_formed};
use tokens::kind::Kind;
use tokens::place::Place;
use tokens::refusal::Refusal;
use tokens::slot::{Slot, slot_at};

// The first kind that carries offsets: those before it are the most frequent.
// Stays: the C interface lends slots as words, and `survey` is asked of slots that hold any number.
pub(crate) const OTHER: u32 = Kind::Other as u32;

// Whether a token is not well formed or cuts a character. The kinds before Other first, which are the most frequent.
fn is_faulty(text: &[u8], slot: Slot) -> bool
    ensures { result ≡ faulty text.now slot }
{
    if slot.kind < OTHER {
        return slot.first != 0 || slot.second != 0;
    }
    if carries_offsets(slot.kind) {
        return is_cut(text, slot);
    }
    !is_well_formed(slot)
}

// The first token that may not be written, and the length of the text before it.
#[derive(Clone, Copy, PartialEq, Eq, Debug)]
pub struct Fault {
    pub place: Place,
    pub total: usize,
}

// The length of the whole text, or the first token that may not be written.
// Stays: `slots` and `count` apart, as the C interface lends both; the text's limit, asked here, in `measure` and in `token_len`, is no plainer as a type: `check_text` gives it, and each slice would be of the text inside.
pub fn survey(text: &[u8], slots: &[u32], count: usize) -> Result<usize, Fault>
    requires { (length text.now ≤ limit) × (count ≤ limit) × (count ≤ room slots.now) }
    ensures { Surveyed text.now slots.now count result }
{
    let mut total = 0;
    for i in 0..count {
        let slot = slot_at(slots, Place(i));
        if is_faulty(text, slot) {
            return Err(Fault {
                place: Place(i),
                total,
            });
        }
        total += token_len(text, slot);
    }
    Ok(total)
}

// Why a list is refused whose first token that may not be written is at a place: 5 where any token is not well formed, before it or
// after it; else 6. The text is there for the contract: nothing of it is read again.
pub fn refusal_at(text: &[u8], slots: &[u32], count: usize, at: Place) -> Refusal
    requires { (count ≤ room slots.now) × (at.0 < count) × (at.0 ≡ first_place (faulty text.now) (tokens_in slots.now count)) }
    ensures { refusal result ≡ (check_form (tokens_in slots.now count) then check_cuts text.now (tokens_in slots.now count)) }
{
    match first_malformed(slots, count) {
        Some(bad) => Refusal::BadToken(bad),
        None => Refusal::CutChar(at),
    }
}
