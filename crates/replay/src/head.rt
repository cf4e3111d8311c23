// What a line asks for: the call, and the numbers before its words and its text.
ghost use Rattle.std.specs.Prelude.{◌≤◌, IfOk, length};
ghost use Rattle.replay.specs.Room.{Asks};

use crate::lay::number;
use frames::line::BadLine;

// A line that is no call.
#[derive(Clone, Copy)]
pub struct NoCall;

impl From<BadLine> for NoCall {
    fn from(_bad: BadLine) -> NoCall {
        NoCall
    }
}

#[derive(Clone, Copy)]
pub enum Call {
    Lex,
    Sanitize,
    Write,
    SanitizeString,
}

impl TryFrom<u8> for Call {
    type Error = NoCall;

    fn try_from(byte: u8) -> Result<Call, NoCall> {
        match byte {
            1 => Ok(Call::Lex),
            2 => Ok(Call::Sanitize),
            3 => Ok(Call::Write),
            4 => Ok(Call::SanitizeString),
            _ => Err(NoCall),
        }
    }
}

// The bytes before the words, the most words and bytes lent, and the longest text.
pub const HEAD: usize = 22;

const MOST: usize = 1024;

const LONGEST: usize = 1048577;

// The call and the numbers, by the places that main.rt gives.
#[derive(Clone, Copy)]
pub struct Head {
    pub call: Call,
    pub words: usize,
    pub given: usize,
    pub count: usize,
    pub room: usize,
    pub size: usize,
}

// The head of a line.
pub fn head_of(bytes: &[u8]) -> Result<Head, NoCall>
    ensures { IfOk result (λ h. Asks h (length bytes.now)) }
{
    if bytes.len() < HEAD {
        return Err(NoCall);
    }
    let head = Head {
        call: Call::try_from(bytes[0])?,
        words: number(bytes, 1) as usize,
        given: number(bytes, 5) as usize,
        count: number(bytes, 9) as usize,
        room: number(bytes, 13) as usize,
        size: number(bytes, 17) as usize,
    };
    if MOST < head.words || MOST < head.room || LONGEST < head.size {
        return Err(NoCall);
    }
    if head.words < head.given || bytes.len() - HEAD < head.given * 4 {
        return Err(NoCall);
    }
    Ok(head)
}
