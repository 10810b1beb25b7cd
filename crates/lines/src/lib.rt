//! Lines of lower-case hexadecimal digits, two digits a byte, each ended by a line feed: reading, writing and showing them.
#![tactic(auto)]

ghost use Rattle.std.specs.Prelude.{◌≡◌, ◌+◌, ◌-◌, ◌*◌, ◌/◌, ◌%◌, ◌^◌, ◌<◌, ◌≤◌, true, length, take, drop, MatchResult, slice_set};
ghost use Rattle.lines.specs.Hex.{digit_char, is_digit, value_of, bytes_of};
ghost use Rattle.lines.specs.Lines.{digits as digit_count, ends_line, formed_at, line_text, DigitsOf, Unformed, line_length, line_at};
ghost use Rattle.lines.specs.Writes.{overwrite};

/// What is wrong with a line: its number and the character, both counted from 1, that breaks its form.
#[derive(Clone, Copy, PartialEq, Eq, Debug)]
pub struct LineFault {
    pub line: usize,
    pub character: usize,
}

// ---- digits

/// The character of a value below 16.
// Kept: `char::from_digit` answers an Option of a `char`, which would be unwrapped and made a byte again.
pub fn digit_char(value: u8) -> u8
    requires { value < 16 }
    ensures { result ≡ digit_char value }
{
    if value < 10 {
        b'0' + value
    } else {
        b'a' - 10 + value
    }
}

/// The value of a digit's character, 0 of any other.
// Kept: 0 for what is no digit is part of the definition `value_of`, by which `decode` is stated; an Option would be unwrapped to 0 at both uses in `byte_of`.
pub fn digit_value(character: u8) -> u8
    ensures value { result ≡ value_of character }
    ensures small { result < 16 }
{
    match character {
        b'0'..=b'9' => character - b'0',
        b'a'..=b'f' => character - b'a' + 10,
        _ => 0,
    }
}

/// Whether a character is a lower-case hexadecimal digit.
pub fn is_digit(character: u8) -> bool
    ensures { result ≡ is_digit character }
{
    matches!(character, b'0'..=b'9' | b'a'..=b'f')
}

/// The byte of two digits, the higher first.
fn byte_of(high: u8, low: u8) -> u8
    ensures { result ≡ 16 * value_of high + value_of low }
{
    16 * digit_value(high) + digit_value(low)
}

/// The higher digit of a byte.
fn high_digit(byte: u8) -> u8
    ensures { result ≡ digit_char (byte / 16) }
{
    digit_char(byte / 16)
}

/// The lower digit of a byte.
fn low_digit(byte: u8) -> u8
    ensures { result ≡ digit_char (byte % 16) }
{
    digit_char(byte % 16)
}

// ---- reading a line

/// How many digits a text begins with.
fn count_digits(text: &[u8]) -> usize
    ensures within { result ≤ length text.now }
    ensures value { result ≡ digit_count text.now }
{
    text.iter().take_while(|c| is_digit(**c)).count()
}

/// Whether a line may end after so many digits, with this character next: a line feed, after an even number of digits that is not 0.
fn ends_line(next: u8, count: usize) -> bool
    ensures { result ≡ ends_line next count }
{
    next == b'\n' && count > 0 && count % 2 == 0
}

/// Whether a text that begins with so many digits begins with a line that is as laid down.
fn is_formed(text: &[u8], count: usize) -> bool
    ensures value { result ≡ formed_at text.now count }
    ensures below { result ≡ true → count < length text.now }
{
    text.get(count).is_some_and(|next| ends_line(*next, count))
}

/// The digits of the line that a text begins with, which has this number, or what is wrong with the line.
pub fn next_line(text: &[u8], line: usize) -> Result<&[u8], LineFault>
    ensures { MatchResult result (λ d. DigitsOf text.now d.now) (λ e. Unformed line text.now e) }
{
    let count = count_digits(text);
    if !is_formed(text, count) {
        return Err(LineFault {
            line,
            character: count + 1,
        });
    }
    Ok(&text[..count])
}

/// Writes the bytes that digits stand for into the front of `bytes`.
pub fn decode(digits: &[u8], bytes: &mut [u8])
    requires { length digits.now / 2 ≤ length bytes.old }
    ensures { bytes.new ≡ overwrite bytes.old 0 (bytes_of digits.now) }
{
    let (pairs, _) = digits.as_chunks::<2>();
    // Kept: written by place, since over `iter_mut()` alone an invariant can name the bytes, and over a `zip` of it none can; `rules::choose_routes` tried that form.
    for (k, [high, low]) in pairs.iter().enumerate() {
        bytes[k] = byte_of(*high, *low);
    }
}

// ---- writing a line

/// Writes the line of some bytes from a place on, and answers the place after it.
pub fn put_line(bytes: &mut [u8], at: usize, frame: &[u8]) -> usize
    requires { at + (2 * length frame.now + 1) ≤ length bytes.old }
    ensures written { bytes.new ≡ overwrite bytes.old at (line_text frame.now) }
    ensures next { result ≡ at + (2 * length frame.now + 1) }
{
    // Kept: written by place, for the reason that `decode` has, and by hand, since `{:02x}` writes text, and these are bytes that the caller lends.
    for (k, b) in frame.iter().enumerate() {
        bytes[at + 2 * k] = high_digit(*b);
        bytes[at + 2 * k + 1] = low_digit(*b);
    }
    let end = at + 2 * frame.len();
    bytes[end] = b'\n';
    end + 1
}

// ---- showing a line

/// The line with a number, counted from 1, as the very part of the text, without its line feed; it is empty past the last line.
pub fn fault_line(text: &[u8], line: usize) -> &[u8]
    ensures { result.now ≡ line_at text.now line }
{
    text.split(|c| *c == b'\n')
        .nth(line.saturating_sub(1))
        .unwrap_or(&[])
}
