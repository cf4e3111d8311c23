// A read, and what it says of the input.
ghost use Rattle.std.specs.Prelude.{◌≡◌, length};
ghost use Rattle.shape.specs.Moved.{Moved};
ghost use Rattle.shape.specs.Passes.{told};

use std::io::{Read, Stdin};

// What the reads did: there may be more to read, the input has ended, or a read failed.
#[derive(Clone, Copy, PartialEq, Eq)]
pub enum Input {
    Open,
    Ended,
    Failed,
}

impl Input {
    // After a read that gave so many bytes: none at the end of the input.
    pub fn after(got: Option<usize>) -> Input
        ensures { result ≡ told got }
    {
        match got {
            None => Input::Failed,
            Some(0) => Input::Ended,
            Some(_) => Input::Open,
        }
    }
}

// Reads once into buf: how many bytes it gave, or none where it failed.
pub fn read_some(stdin: Stdin, buf: &mut [u8]) -> Option<usize>
    ensures { Moved (length buf.new) result }
{
    let mut input = stdin;
    input.read(buf).ok()
}
