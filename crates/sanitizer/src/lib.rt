// The sanitiser: sanitizer.rs in the Rust. It blanks and replaces the values of a list of tokens, by a table of eleven states and 32 arms.
// Document 01, "sanitizer.rs".
#![tactic(auto)]

ghost use Rattle.std.specs.Prelude.{◌≤◌};
ghost use Rattle.tokens.specs.Slots.{room, tokens_in, Left};
ghost use Rattle.sanitizer.specs.Run.{sanitized, Known};
ghost use Rattle.sanitizer.specs.Promise.{Sanitizes, SanitizesTokens};

use arms::State;
use exposed::exposed;
use tokens::check::check_list;
use tokens::place::Place;
use tokens::refusal::Refusal;
use turn::{Turn, turn_at};

pub mod arms;
pub mod exposed;
pub mod scan;
pub mod turn;

// All turns, from the first place on.
// Stays: the C interface lends `slots` and `count` apart; a struct of both would be no plainer, as each turn changes the slots.
fn pass(slots: &mut [u32], count: usize)
    requires { (count ≤ room slots.old) × Known (tokens_in slots.old count) }
    ensures { Left count slots.old slots.new (sanitized (tokens_in slots.old count)) }
{
    let mut turn = Turn {
        next: Place(0),
        state: State::Default,
    };
    // Stays: no plainer: a turn goes on by a place or by many, so that no `for` has its step.
    while turn.next.0 < count {
        turn = turn_at(slots, count, turn.next, turn.state);
    }
}

// Sanitises a list that was accepted; its exposed count.
pub fn sanitize_tokens(slots: &mut [u32], count: usize) -> usize
    requires { (count ≤ room slots.old) × Known (tokens_in slots.old count) }
    ensures { SanitizesTokens slots.old count result slots.new }
{
    pass(slots, count);
    exposed(slots, count)
}

// Sanitises the first `count` slots of a lent buffer: the exposed count, or why the list is refused. A refusal changes nothing.
#[tactic(auto, unfolding(crate::specs::Promise::sanitize_answer, crate::specs::Promise::sanitize_buffer))]
pub fn sanitize(slots: &mut [u32], count: usize) -> Result<usize, Refusal>
    ensures { Sanitizes slots.old count result slots.new }
{
    check_list(slots, count)?;
    Ok(sanitize_tokens(slots, count))
}
