// Hexadecimal in either letter case to bytes, and bytes to hexadecimal in lower case.
ghost use Rattle.std.specs.Prelude.{◌≡◌, List, [], ◌∷◌, ◌+◌, ◌*◌, ◌≤◌, ◌<◌, length, not, is_some, position};
ghost use Rattle.writer.specs.Promise.{Put};
ghost use Rattle.frames.specs.Hex.{hex_read, first_not_hex, hex_bytes, hex_digit, hex_text};
ghost use Rattle.frames.specs.Frames.{big_endian};

// The value of a character; none for one that is not hexadecimal.
// Stays: no plainer by `to_digit`, which takes a `char` and answers a u32.
#[tactic(auto, unfolding(crate::specs::Hex::hex_value))]
pub fn hex_value(c: u8) -> Option<u8>
    ensures { result ≡ hex_read c }
{
    match c {
        b'0'..=b'9' => Some(c - b'0'),
        b'a'..=b'f' => Some(c - b'a' + 10),
        b'A'..=b'F' => Some(c - b'A' + 10),
        _ => None,
    }
}

// The place of the first character that is not hexadecimal.
fn place_not_hex(line: &[u8]) -> Option<usize>
    ensures { result ≡ position (λ c. not (is_some (hex_read c))) line.now }
{
    line.iter().position(|&c| hex_value(c).is_none())
}

// The place of the first character that is not hexadecimal, or the line's length.
// Stays: the length stands for none; what may not change: `first_not_hex` (specs/Hex.antt), which `check_line` and `decode` cite.
pub fn first_not_hex(line: &[u8]) -> usize
    ensures { result ≡ first_not_hex line.now }
{
    place_not_hex(line).unwrap_or(line.len())
}

// The bytes of a line, over the front of the text: how many they are.
pub fn decode(line: &[u8], text: &mut [u8]) -> usize
    requires { (length line.now ≤ length text.old * 2) × (first_not_hex line.now ≡ length line.now) }
    ensures { Put text.old 0 (hex_bytes line.now) result text.new }
{
    let (pairs, _) = line.as_chunks::<2>();
    for (i, &[high, low]) in pairs.iter().enumerate() {
        text[i] = hex_value(high).unwrap() * 16 + hex_value(low).unwrap();
    }
    pairs.len()
}

// The character of a value below 16.
// Stays: no plainer by `from_digit`, which answers an Option of a `char`.
#[tactic(auto, unfolding(crate::specs::Hex::hex_digit))]
fn hex_digit(v: u8) -> u8
    requires { v < 16 }
    ensures { result ≡ hex_digit v }
{
    if v < 10 { v + b'0' } else { v - 10 + b'a' }
}

// Bytes as text behind the first `at` bytes of the page: how many there are then.
// Stays: a place beside the page, here and in those that call this; what may not change: `Put`, and by it `print_unique`, names every byte of it.
pub fn put_hex(page: &mut [u8], at: usize, bytes: &[u8]) -> usize
    requires { at + length bytes.now * 2 ≤ length page.old }
    ensures { Put page.old at (hex_text bytes.now) result page.new }
{
    let mut end = at;
    for &b in bytes {
        page[end] = hex_digit(b / 16);
        page[end + 1] = hex_digit(b % 16);
        end += 2;
    }
    end
}

// The status byte and the number's lowest four bytes, the highest first, as text.
#[tactic(auto, unfolding(crate::specs::Frames::big_endian))]
pub fn put_head(page: &mut [u8], at: usize, status: u8, number: usize) -> usize
    requires { at + 10 ≤ length page.old }
    ensures { Put page.old at (hex_text (status ∷ big_endian number)) result page.new }
{
    let [_, _, _, _, a, b, c, d] = number.to_be_bytes();
    put_hex(page, at, &[status, a, b, c, d])
}
