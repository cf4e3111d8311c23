// The whole reading: one loop, and its public face.
ghost use Rattle.std.specs.Prelude.{◌≡◌, ◌≤◌, take};
ghost use Rattle.tokens.specs.Slots.{room, laid};
ghost use Rattle.scans.specs.Ways.{pinned};
ghost use Rattle.scans.specs.Whole.{Whole};
ghost use Rattle.lexer.specs.Read.{reading, tokens, lexed_of, kept};
ghost use Rattle.lexer.specs.Lexes.{Lexes, Valid};

use crate::mark::mark_of;
use crate::read::read_one;
use crate::rule::{State, state_after};
use chars::offset::Offset;
use tokens::check::check_text;
use tokens::place::Place;
use tokens::refusal::Refusal;
use tokens::slot::{Slot, put, whole_slots};

// How many tokens were read, and where the reading stopped.
#[derive(Clone, Copy, PartialEq, Eq, Debug)]
pub struct Lexed {
    pub tokens: usize,
    pub stop: Offset,
}

// Stores a token whose place is below `upto`.
fn keep(slots: &mut [u32], upto: usize, place: Place, slot: Slot)
    requires { upto ≤ room slots.old }
    ensures { slots.new ≡ kept slots.old upto place.0 slot }
{
    if place.0 < upto {
        put(slots, place, slot);
    }
}

// Counts all tokens, and stores those whose place is below `upto`.
fn walk(text: &[u8], slots: &mut [u32], upto: usize) -> Lexed
    requires whole { Whole text.now 0 }
    requires upto_bound { upto ≤ room slots.old }
    ensures value { result ≡ lexed_of (reading pinned text.now) }
    ensures slots_after { slots.new ≡ laid (take upto (tokens (reading pinned text.now))) slots.old }
{
    let mut at = 0;
    let mut n = 0;
    let mut state = State::Default;
    // Stays: no plainer as a `for`: a token takes as many bytes as it has.
    while at < text.len() {
        if let Some(mark) = mark_of(text[at]) {
            keep(slots, upto, Place(n), mark.bare());
            at += 1;
            n += 1;
            continue;
        }
        let Some(taken) = read_one(text, Offset(at), state) else {
            return Lexed {
                tokens: n,
                stop: Offset(at),
            };
        };
        keep(slots, upto, Place(n), taken.slot);
        state = state_after(taken.slot.kind, state);
        at = taken.next.0;
        n += 1;
    }
    Lexed {
        tokens: n,
        stop: Offset(at),
    }
}

// Reads a valid text. A token takes a byte or more: where there are as many slots as bytes, the tokens need no counting first.
fn lex_valid(text: &[u8], slots: &mut [u32]) -> Result<Lexed, Refusal>
    requires { Whole text.now 0 }
    ensures { Valid text.now slots.old result slots.new }
{
    let places = whole_slots(slots);
    if places < text.len() {
        let counted = walk(text, slots, 0);
        let needed = counted.tokens;
        if places < needed {
            return Err(Refusal::NoRoomTokens(needed));
        }
    }
    Ok(walk(text, slots, places))
}

// Reads a text into slots. A refusal leaves them as they were.
pub fn lex(text: &[u8], slots: &mut [u32]) -> Result<Lexed, Refusal>
    ensures { Lexes text.now slots.old result slots.new }
{
    check_text(text)?;
    lex_valid(text, slots)
}
