// Which slots are well formed. Document 01, "Token slots".
ghost use Rattle.std.specs.Prelude.{◌≡◌, ◌≤◌};
ghost use Rattle.tokens.specs.Kinds.{is_quoted};
ghost use Rattle.tokens.specs.Slots.{room, tokens_in};
ghost use Rattle.tokens.specs.Formed.{carries_offsets, well_formed, malformed, first_place, place_below};

use crate::kind::Kind;
use crate::place::Place;
use crate::slot::{Slot, slot_at};

// The numbers between which the kinds differ in what they may carry.
// Stays: the C interface lends a kind as a word that may hold any number, and document 01 names this form: a match over the number with its ranges.
const NONE: u32 = Kind::None as u32;

const OTHER: u32 = Kind::Other as u32;

const N: u32 = Kind::N as u32;

const CHARSET: u32 = Kind::Charset as u32;

const BACKTICKED: u32 = Kind::Backticked as u32;

const SINGLE_QUOTED: u32 = Kind::SingleQuoted as u32;

const NUMBERED_PLACEHOLDER: u32 = Kind::NumberedPlaceholder as u32;

const UNKNOWN: u32 = Kind::Unknown as u32;

// Whether a kind carries a start and an end offset.
pub fn carries_offsets(kind: u32) -> bool
    ensures { result ≡ carries_offsets kind }
{
    match kind {
        OTHER | CHARSET..=NUMBERED_PLACEHOLDER => true,
        _ => false,
    }
}

// Whether a kind has a quote before and after its slice.
#[tactic(auto, unfolding(crate::specs::Kinds::is_quoted))]
pub fn is_quoted(kind: u32) -> bool
    ensures { result ≡ is_quoted kind }
{
    matches!(kind, BACKTICKED..=SINGLE_QUOTED)
}

// Whether the two numbers of a slot are such as its kind may carry.
pub fn is_well_formed(slot: Slot) -> bool
    ensures { result ≡ well_formed slot }
{
    match slot.kind {
        OTHER | CHARSET..=NUMBERED_PLACEHOLDER => true,
        UNKNOWN => chars::utf8::is_scalar(slot.first) && slot.second == 0,
        NONE..=N => slot.first == 0 && slot.second == 0,
        _ => false,
    }
}

// The place of the first slot that is not well formed, where there is one.
// Stays: `slots` and `count` apart: the C interface lends both.
pub fn first_malformed(slots: &[u32], count: usize) -> Option<Place>
    requires { count ≤ room slots.now }
    ensures { result ≡ place_below count (first_place malformed (tokens_in slots.now count)) }
{
    for i in 0..count {
        let place = Place(i);
        if !is_well_formed(slot_at(slots, place)) {
            return Some(place);
        }
    }
    None
}
