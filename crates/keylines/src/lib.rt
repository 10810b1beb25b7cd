//! A report for people and scripts alike: lines of a key and a value, numbers apart, and bytes as they are shown.
#![tactic(auto)]

ghost use Rattle.std.specs.Prelude.{Some, ◌≡◌, ◌<◌, ◌≤◌, ◌+◌, ◌++◌, length, take};
ghost use Rattle.keylines.specs.KeyLines.{key_name, entry_line, entry_lines, hex_digit, shown_byte, shown_bytes, spaced};

use std::{fmt, str};

/// The keys of entries with a number.
#[derive(Clone, Copy, Debug)]
pub enum Key {
    Book,
    Nodes,
    Demands,
    Units,
    Slots,
    Refused,
    Line,
    Character,
    Needed,
    Place,
    Row,
    Met,
}

/// A key with its number, if there is one. It prints as a line, and as nothing where there is no number.
#[derive(Clone, Copy, Debug)]
pub struct Entry {
    pub key: Key,
    pub value: Option<usize>,
}

impl fmt::Display for Key {
    ghost output = { λ key. Some (key_name key) };

    /// Writes the name of the key.
    fn fmt<W: fmt::Write>(&self, f: &mut fmt::Formatter<W>) -> fmt::Result {
        f.write_str(match self {
            Key::Book => "book",
            Key::Nodes => "nodes",
            Key::Demands => "demands",
            Key::Units => "units",
            Key::Slots => "slots",
            Key::Refused => "refused",
            Key::Line => "line",
            Key::Character => "character",
            Key::Needed => "needed",
            Key::Place => "place",
            Key::Row => "row",
            Key::Met => "met",
        })
    }
}

impl fmt::Display for Entry {
    ghost output = { λ entry. Some (entry_line entry) };

    fn fmt<W: fmt::Write>(&self, f: &mut fmt::Formatter<W>) -> fmt::Result {
        match self.value {
            Some(number) => writeln!(f, "{} {number}", self.key),
            None => Ok(()),
        }
    }
}

/// Entries, which print one after another.
#[derive(Clone, Copy, Debug)]
pub struct Entries<'a>(pub &'a [Entry]);

impl fmt::Display for Entries<'_> {
    ghost output = { λ entries. Some (entry_lines entries.0.now) };

    fn fmt<W: fmt::Write>(&self, f: &mut fmt::Formatter<W>) -> fmt::Result {
        // Kept: two loops of this form stand here, for entries and numbers; one function for both would take what is printed of an item as a parameter of its contract, for two loops of two lines.
        for entry in self.0 {
            write!(f, "{entry}")?;
        }
        Ok(())
    }
}

/// Numbers, which print each after a space.
#[derive(Clone, Copy, Debug)]
pub struct Spaced<'a>(pub &'a [u16]);

impl fmt::Display for Spaced<'_> {
    ghost output = { λ numbers. Some (spaced numbers.0.now) };

    fn fmt<W: fmt::Write>(&self, f: &mut fmt::Formatter<W>) -> fmt::Result {
        for number in self.0 {
            write!(f, " {number}")?;
        }
        Ok(())
    }
}

/// The lower-case hexadecimal digit of a value below 16.
fn hex_digit(value: u8) -> u8
    requires { value < 16 }
    ensures { result ≡ hex_digit value }
{
    if value < 10 {
        b'0' + value
    } else {
        b'a' - 10 + value
    }
}

/// Puts a byte as it is shown: a backslash twice, other printable ASCII as it is, anything else as \xNN. Answers where it ends.
fn put_shown_byte(out: &mut [u8; 1024], at: usize, byte: u8) -> usize
    requires { at + 4 ≤ 1024 }
    ensures end { result ≤ at + 4 }
    ensures text { take result out.new ≡ take at out.old ++ shown_byte byte }
{
    if byte == b'\\' {
        out[at] = b'\\';
        out[at + 1] = b'\\';
        at + 2
    } else if (32..=126).contains(&byte) {
        out[at] = byte;
        at + 1
    } else {
        out[at] = b'\\';
        out[at + 1] = b'x';
        out[at + 2] = hex_digit(byte / 16);
        out[at + 3] = hex_digit(byte % 16);
        at + 4
    }
}

/// Bytes as they are shown, in the room that they are given.
fn shown_text<'a>(out: &'a mut [u8; 1024], bytes: &[u8]) -> &'a str
    requires { length bytes.now ≤ 256 }
    ensures { result.now ≡ shown_bytes bytes.now }
{
    let mut end = 0;
    for byte in bytes {
        end = put_shown_byte(out, end, *byte);
    }
    let Ok(text) = str::from_utf8(&out[..end]) else {
        unreachable!();
    };
    text
}

/// Bytes, which print as they are shown.
#[derive(Clone, Copy, Debug)]
pub struct Shown<'a>(pub &'a [u8]);

impl fmt::Display for Shown<'_> {
    ghost output = { λ bytes. Some (shown_bytes bytes.0.now) };

    fn fmt<W: fmt::Write>(&self, f: &mut fmt::Formatter<W>) -> fmt::Result {
        // Kept: bytes are put into an array, and a chunk is written at once: printing each byte through a formatter of its own took four to seven times as long.
        let mut out = [0u8; 1024];
        for chunk in self.0.chunks(256) {
            f.write_str(shown_text(&mut out, chunk))?;
        }
        Ok(())
    }
}
