// Bytes as they come, in a room of N: a line that is read, a page that frames are collected in.
ghost use Rattle.std.specs.Prelude.{◌≡◌, ◌+◌, ◌≤◌, [], ◌++◌, length};
ghost use Rattle.frames.specs.Filled.{Keeps};
ghost use Rattle.frames.specs.Frames.{frame_of, Leaves, printed, longest, SameBuffers};

use crate::{Work, print_frame};
use std::marker::Model;

#[derive(Drop)]
pub struct Filled<const N: usize> {
    bytes: [u8; N],
    count: usize,
}

impl<const N: usize> Model for Filled<N> {
    ghost use Rattle.std.specs.Prelude.{List, ℕ, ◌≤◌, take};

    ghost Value = { List ℕ };

    ghost view = { λ f. take f.count f.bytes };

    ghost invariant = { λ f. f.count ≤ N };
}

impl<const N: usize> Filled<N> {
    pub fn new() -> Self
        ensures { result ≡ [] }
    {
        Filled {
            bytes: [0; N],
            count: 0,
        }
    }

    pub fn as_slice(&self) -> &[u8]
        ensures { result.now ≡ self.now }
    {
        &self.bytes[..self.count]
    }

    pub fn clear(&mut self)
        ensures { self.new ≡ [] }
    {
        self.count = 0;
    }

    // Keeps a byte behind the others, where there is room.
    pub fn keep(&mut self, c: u8)
        ensures { Keeps N self.old c self.new }
    {
        if self.count < N {
            self.bytes[self.count] = c;
            self.count += 1;
        }
    }
}

impl Filled<65536> {
    // Prints the frame of a line behind what the page has.
    pub fn print(&mut self, line: &[u8], work: &mut Work)
        requires { length self.old + longest ≤ 65536 }
        ensures printed { self.new ≡ self.old ++ printed (frame_of line.now) }
        ensures left { Leaves line.now work.old.text.now work.old.slots.now work.old.out.now work.new.text.now work.new.slots.now work.new.out.now }
        ensures same { SameBuffers work.old work.new }
    {
        self.count = print_frame(line, work, &mut self.bytes, self.count);
    }
}
