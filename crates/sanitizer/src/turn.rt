// One turn of the sanitiser: the arm that takes the token at a place, carried out. Document 01, "sanitizer.rs"; specs/Run.antt, specs/Leaves.antt.
// Stays: `slots` and `count` apart: the C interface lends both.
ghost use Rattle.std.specs.Prelude.{◌≡◌, ◌≤◌, ◌<◌, ◌+◌};
ghost use Rattle.tokens.specs.Kinds as kinds;
ghost use Rattle.tokens.specs.Named.{number};
ghost use Rattle.tokens.specs.Slots.{room, bare, stored, tokens_in};
ghost use Rattle.sanitizer.specs.Scans.{kind_at};
ghost use Rattle.sanitizer.specs.Run.{turn};
ghost use Rattle.sanitizer.specs.Leaves.{Turned, Blanked, Covered, Uncommented};

use crate::arms::{Arm, Does, State, choose};
use crate::scan::{close_from, is_dotted, kind_at, rows_from};
use tokens::kind::Kind;
use tokens::place::Place;
use tokens::slot::put;

// Where to read next, and in which state.
#[derive(Clone, Copy)]
pub struct Turn {
    pub next: Place,
    pub state: State,
}

// Puts a token that carries nothing: the Rust's `remove`, `placeholder` and `ellipsis`.
fn replace(slots: &mut [u32], place: Place, kind: Kind)
    requires { place.0 < room slots.old }
    ensures { slots.new ≡ stored slots.old place.0 (bare (number kind)) }
{
    put(slots, place, kind.bare());
}

// Blanks the places from one up to, not including, another.
fn blank(slots: &mut [u32], from: Place, to: Place)
    requires { (from.0 ≤ to.0) × (to.0 ≤ room slots.old) }
    ensures { Blanked slots.old slots.new from.0 to.0 }
{
    for at in from.0..to.0 {
        replace(slots, Place(at), Kind::None);
    }
}

// Puts one token for all from its place up to, not including, another.
fn one_for(slots: &mut [u32], place: Place, to: Place, kind: Kind)
    requires { (place.0 < to.0) × (to.0 ≤ room slots.old) }
    ensures { Covered (number kind) slots.old slots.new place.0 to.0 }
{
    replace(slots, place, kind);
    blank(slots, Place(place.0 + 1), to);
}

// Blanks a comment, and a Space directly before it. Place 0 has none before it.
fn remove_comment(slots: &mut [u32], place: Place)
    requires { place.0 < room slots.old }
    ensures { Uncommented slots.old slots.new place.0 }
{
    let at = place.0;
    replace(slots, place, Kind::None);
    if at != 0 && kind_at(slots, Place(at - 1)) == u32::from(Kind::Space) {
        replace(slots, Place(at - 1), Kind::None);
    }
}

// One turn at a place, in a state.
pub fn turn_at(slots: &mut [u32], count: usize, place: Place, state: State) -> Turn
    requires { (place.0 < count) × (count ≤ room slots.old) × (kind_at (tokens_in slots.old count) place.0 ≤ kinds.Unknown) }
    ensures { Turned count slots.old slots.new place.0 (turn (tokens_in slots.old count) place.0 state) result.next.0 result.state }
{
    let next = Place(place.0 + 1);
    let Ok(kind) = Kind::try_from(kind_at(slots, place)) else {
        unreachable!()
    };
    let Arm(_, does) = choose(state, kind);
    match does {
        Does::Stay => Turn { next, state },
        Does::Go(state) => Turn { next, state },
        Does::Replace => {
            replace(slots, place, Kind::Placeholder);
            Turn { next, state }
        }
        Does::ReplaceUnlessDotted => {
            if !is_dotted(slots, count, place) {
                replace(slots, place, Kind::Placeholder);
            }
            Turn { next, state }
        }
        Does::ReplaceToClose => {
            let close = close_from(slots, count, next);
            one_for(slots, place, close, Kind::Placeholder);
            Turn { next: close, state }
        }
        Does::CollapseRows => {
            let end = rows_from(slots, count, next);
            one_for(slots, place, end, Kind::Ellipsis);
            // The token after the rows is passed over.
            let next = Place(end.0 + 1);
            Turn { next, state }
        }
        Does::RemoveComment => {
            remove_comment(slots, place);
            Turn { next, state }
        }
    }
}
