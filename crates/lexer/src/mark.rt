// The marks of rule 4, which are half of all tokens: looked up in a table before the rules are gone through.
ghost use Rattle.tokens.specs.Named.{Finds};
ghost use Rattle.lexer.specs.Marks.{mark_of};

use tokens::kind::Kind;

// The entries of the table, each four letters, so that a row has sixteen.
const NONE: Option<Kind> = None;

const SPCE: Option<Kind> = Some(Kind::Space);

const LINE: Option<Kind> = Some(Kind::Newline);

const STOP: Option<Kind> = Some(Kind::Dot);

const COMA: Option<Kind> = Some(Kind::Comma);

const OPEN: Option<Kind> = Some(Kind::ParentheseOpen);

const SHUT: Option<Kind> = Some(Kind::ParentheseClose);

const SQOP: Option<Kind> = Some(Kind::SquareBracketOpen);

const SQSH: Option<Kind> = Some(Kind::SquareBracketClose);

const COLN: Option<Kind> = Some(Kind::Colon);

const SEMI: Option<Kind> = Some(Kind::Semicolon);

const HOLD: Option<Kind> = Some(Kind::Placeholder);

// For each ASCII character the kind of the mark that it is: a chart of ASCII, sixteen to a row. A `match` on the byte is a jump, which the processor
// guesses wrong where marks come in no order.
static MARKS: [Option<Kind>; 128] = [
    NONE, NONE, NONE, NONE, NONE, NONE, NONE, NONE, NONE, NONE, LINE, NONE, NONE, LINE, NONE, NONE,
    NONE, NONE, NONE, NONE, NONE, NONE, NONE, NONE, NONE, NONE, NONE, NONE, NONE, NONE, NONE, NONE,
    SPCE, NONE, NONE, NONE, NONE, NONE, NONE, NONE, OPEN, SHUT, NONE, NONE, COMA, NONE, STOP, NONE,
    NONE, NONE, NONE, NONE, NONE, NONE, NONE, NONE, NONE, NONE, COLN, SEMI, NONE, NONE, NONE, HOLD,
    NONE, NONE, NONE, NONE, NONE, NONE, NONE, NONE, NONE, NONE, NONE, NONE, NONE, NONE, NONE, NONE,
    NONE, NONE, NONE, NONE, NONE, NONE, NONE, NONE, NONE, NONE, NONE, SQOP, NONE, SQSH, NONE, NONE,
    NONE, NONE, NONE, NONE, NONE, NONE, NONE, NONE, NONE, NONE, NONE, NONE, NONE, NONE, NONE, NONE,
    NONE, NONE, NONE, NONE, NONE, NONE, NONE, NONE, NONE, NONE, NONE, NONE, NONE, NONE, NONE, NONE,
];

// The kind of the mark that a byte is.
pub fn mark_of(b: u8) -> Option<Kind>
    ensures { Finds (mark_of b) result }
{
    if 0x80 <= b {
        return None;
    }
    MARKS[b as usize]
}
