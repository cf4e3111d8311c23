// A line as it comes in, and refusal 8: a line that is no statement in hexadecimal.
ghost use Rattle.std.specs.Prelude.{◌≡◌};
ghost use Rattle.frames.specs.Frames.{check_line, checked};

use crate::filled::Filled;
use crate::hex::first_not_hex;

// The most characters of a line.
pub const LIMIT: usize = 16384;

// One more than that.
const ROOM: usize = LIMIT + 1;

// The characters of a line, as they come. A longer line has the same frame whatever follows its last character here, so that is dropped.
pub type Line = Filled<ROOM>;

// Refusal 8, by its detail.
#[derive(Clone, Copy)]
pub struct BadLine(pub usize);

// The limit, for a longer line; else the place of the first non-hex character; else, for an odd count, the line's length.
#[tactic(auto, unfolding(crate::specs::Frames::check_line))]
pub fn check_line(line: &[u8]) -> Result<(), BadLine>
    ensures { checked result ≡ check_line line.now }
{
    let length = line.len();
    if LIMIT < length {
        return Err(BadLine(LIMIT));
    }
    let place = first_not_hex(line);
    if place < length {
        return Err(BadLine(place));
    }
    if length % 2 == 1 {
        return Err(BadLine(length));
    }
    Ok(())
}
