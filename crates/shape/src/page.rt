// The page that frames are collected in, and how its bytes are written.
ghost use Rattle.std.specs.Prelude.{◌≡◌, ◌≤◌, true, length};

use frames::filled::Filled;
use std::io::{Print, Stdout};

const ROOM: usize = 65536;

pub type Page = Filled<ROOM>;

// The most bytes of a page that leave room for the longest frame, 32,779 bytes.
pub const FULL: usize = ROOM - 32779;

// Writes the bytes: how many of them the writes took, which is all unless one failed. Where one has failed before, none is made.
pub fn write_out(stdout: Stdout, bytes: &[u8], lost: bool) -> usize
    ensures { (result ≤ length bytes.now) × (lost ≡ true → result ≡ 0) }
{
    if lost {
        return 0;
    }
    let mut left = bytes;
    while !left.is_empty() {
        match stdout.write_some(left) {
            Ok(took) if 0 < took => left = &left[took..],
            _ => break,
        }
    }
    bytes.len() - left.len()
}
