// Which row of the table of known texts a text can only be, by its length and its first two letters.
ghost use Rattle.std.specs.Prelude.{◌≡◌};
ghost use Rattle.std.specs.Option.{option_map};
ghost use Rattle.words.specs.Known.{as_row, guess_of};

use crate::laid::{run_guess, word_guess, zero_guess};
use crate::table::Known;

// Which rows: 37 words, seventeen runs, the beginnings of hexadecimal and binary numbers.
#[derive(Clone, Copy)]
pub enum Sort {
    Words,
    Runs,
    Zeros,
}

// By the keys that tools/guesses prints; None where no row has the key.
// Stays: no plainer as a trait or a closure: three tables that differ in their rows, and one `match`.
pub fn guess_row(sort: Sort, key: u32) -> Option<Known>
    ensures { option_map as_row result ≡ guess_of sort key }
{
    match sort {
        Sort::Words => word_guess(key),
        Sort::Runs => run_guess(key),
        Sort::Zeros => zero_guess(key),
    }
}
