// Token slots: three words a token, from the front of a lent buffer. Words left over behind the whole slots are never touched.
// Only this file knows how many words a slot is; which word is which, only `slot_at` and `put`.
ghost use Rattle.std.specs.Prelude.{◌≡◌, ◌<◌};
ghost use Rattle.tokens.specs.Named.{number};
ghost use Rattle.tokens.specs.Slots.{bare, room, slot_at, stored};

use crate::kind::Kind;
use crate::place::Place;

// A token as a slot holds it: its kind's number, and the two numbers that it carries. A lent slot may hold any number for a kind.
// Stays: the kind is a number here, since C lends slots as words, and `well_formed` is asked of slots that hold any.
#[derive(Clone, Copy, PartialEq, Eq, Debug)]
pub struct Slot {
    pub kind: u32,
    pub first: u32,
    pub second: u32,
}

// How many words a slot is.
const WORDS: usize = 3;

// A token that carries nothing, by its kind's number.
// Stays: what may not change: `bare`, a public function, takes any number; `Kind::bare` takes a kind.
pub fn bare(kind: u32) -> Slot
    ensures { result ≡ bare kind }
{
    Slot {
        kind,
        first: 0,
        second: 0,
    }
}

impl Kind {
    // A token of this kind that carries nothing.
    pub fn bare(self) -> Slot
        ensures { result ≡ bare (number self) }
    {
        bare(u32::from(self))
    }
}

// How many whole slots a buffer has.
pub fn whole_slots(slots: &[u32]) -> usize
    ensures { result ≡ room slots.now }
{
    slots.len() / WORDS
}

// The token in a slot.
pub fn slot_at(slots: &[u32], place: Place) -> Slot
    requires { place.0 < room slots.now }
    ensures { result ≡ slot_at slots.now place.0 }
{
    let at = place.0 * WORDS;
    Slot {
        kind: slots[at],
        first: slots[at + 1],
        second: slots[at + 2],
    }
}

// Stores a token in a slot.
pub fn put(slots: &mut [u32], place: Place, slot: Slot)
    requires { place.0 < room slots.old }
    ensures { slots.new ≡ stored slots.old place.0 slot }
{
    let at = place.0 * WORDS;
    slots[at] = slot.kind;
    slots[at + 1] = slot.first;
    slots[at + 2] = slot.second;
}
