//! Bytes printed as quoted texts.
ghost use Rattle.std.specs.Prelude.{◌≡◌, ◌+◌, ◌<◌, if◌then◌else◌, nat_lt};

use std::fmt;

/// Bytes as a quoted text. Marks and bytes that are no part of a character are written as escapes.
#[derive(Clone, Copy)]
pub struct Quoted<'a>(pub &'a [u8]);

// The hexadecimal digit of a number below 16.
fn hex_char(d: u8) -> char
    requires { d < 16 }
    ensures { result ≡ (if nat_lt d 10 then 48 + d else 87 + d) }
{
    if d < 10 {
        (b'0' + d) as char
    } else {
        (b'a' - 10 + d) as char
    }
}

// A byte as an escape.
// Kept: by `{b:02x}` a listing of control characters took nearly twice as long.
fn show_byte<W: fmt::Write>(f: &mut fmt::Formatter<W>, b: u8) -> fmt::Result {
    f.write_str("\\x")?;
    f.write_char(hex_char(b / 16))?;
    f.write_char(hex_char(b % 16))
}

// One character of a text.
fn show_char<W: fmt::Write>(f: &mut fmt::Formatter<W>, c: char) -> fmt::Result {
    match c {
        '"' => f.write_str("\\\""),
        '\\' => f.write_str("\\\\"),
        '\0'..='\x1f' | '\x7f' => show_byte(f, c as u8),
        _ => f.write_char(c),
    }
}

fn show_chars<W: fmt::Write>(f: &mut fmt::Formatter<W>, s: &str) -> fmt::Result {
    for c in s.chars() {
        show_char(f, c)?;
    }
    Ok(())
}

// Bytes that are no part of a character, each as an escape.
fn show_bytes<W: fmt::Write>(f: &mut fmt::Formatter<W>, bytes: &[u8]) -> fmt::Result {
    for b in bytes {
        show_byte(f, *b)?;
    }
    Ok(())
}

/// Writes bytes as a quoted text.
pub fn show_quoted<W: fmt::Write>(f: &mut fmt::Formatter<W>, bytes: &[u8]) -> fmt::Result {
    f.write_str("\"")?;
    for chunk in bytes.utf8_chunks() {
        show_chars(f, chunk.valid())?;
        show_bytes(f, chunk.invalid())?;
    }
    f.write_str("\"")
}

impl fmt::Display for Quoted<'_> {
    fn fmt<W: fmt::Write>(&self, f: &mut fmt::Formatter<W>) -> fmt::Result {
        show_quoted(f, self.0)
    }
}
