// The checks that several calls share: of a text, and of a token list. Document 01, "Refusal numbers".
ghost use Rattle.std.specs.Prelude.{◌≡◌};
ghost use Rattle.tokens.specs.Slots.{tokens_in};
ghost use Rattle.tokens.specs.Checks.{◌then◌, check_text, check_count, check_form, checked};

use crate::formed::first_malformed;
use crate::refusal::{LIMIT, Refusal};
use crate::slot::whole_slots;
use chars::utf8::validate;

// 1 TextTooLong, then 2 NotUtf8.
#[tactic(auto, unfolding(crate::specs::Checks::check_text))]
pub fn check_text(text: &[u8]) -> Result<(), Refusal>
    ensures { checked result ≡ check_text text.now }
{
    let length = text.len();
    if LIMIT < length {
        return Err(Refusal::TextTooLong(length));
    }
    validate(text)?;
    Ok(())
}

// 4 BadCount.
// Stays: the C interface lends `slots` and `count` apart, and here it is found out whether they fit.
#[tactic(auto, unfolding(crate::specs::Checks::check_count))]
pub fn check_count(slots: &[u32], count: usize) -> Result<(), Refusal>
    ensures { checked result ≡ check_count slots.now count }
{
    let whole = whole_slots(slots);
    if LIMIT < count || whole < count {
        return Err(Refusal::BadCount(whole));
    }
    Ok(())
}

// 4 BadCount, then 5 BadToken.
pub fn check_list(slots: &[u32], count: usize) -> Result<(), Refusal>
    ensures { checked result ≡ (check_count slots.now count then check_form (tokens_in slots.now count)) }
{
    check_count(slots, count)?;
    match first_malformed(slots, count) {
        Some(place) => Err(Refusal::BadToken(place)),
        None => Ok(()),
    }
}
