// The step in a loop, for bench/ to time. Apart from chars_c, since the step is compiled into its caller where it has one alone.
#![tactic(auto)]

ghost use Rattle.std.specs.Prelude.{◌≡◌, length};
ghost use Rattle.chars.specs.Utf8.{chars};

use chars::offset::Offset;
use chars::utf8::{Step, step_at};

// How many characters a text has, up to its first bad byte.
#[unsafe(no_mangle)]
pub extern "C" fn hay_count(text: &[u8]) -> usize
    ensures { result ≡ length (chars text.now) }
{
    let mut count = 0;
    let mut at = Offset(0);
    while let Step::Char(_, next) = step_at(text, at) {
        count += 1;
        at = next;
    }
    count
}
