//! Texts as a person is shown them within a line.
ghost use Rattle.std.specs.Prelude.{◌≡◌, ◌<◌, Some};
ghost use Rattle.std.specs.Fmt.{DisplaysOnOk};
ghost use Rattle.std.specs.Str.{chars};
ghost use Rattle.rl_cli.specs.Spelt.{control_text, hex_digit as hex_digit_of, is_control as is_control_of, quoted as quoted_text, spelt_char, spelt_within};

use std::fmt;

/// How many bytes of a text are shown.
const ROOM: usize = 200;

/// A text spelt as a JSON string, so that it has no line end and no other control character. Of more
/// than 200 bytes the characters within the first 200 are shown, and then `…`.
#[derive(Clone, Copy)]
pub struct Spelt<'a>(pub &'a str);

/// Whether a character is a control character.
fn is_control(c: char) -> bool
    ensures { result ≡ is_control_of c }
{
    c < ' ' || (c >= '\u{7f}' && c <= '\u{9f}')
}

/// A digit of base 16.
fn hex_digit(n: u8) -> char
    requires { n < 16 }
    ensures { result ≡ hex_digit_of n }
{
    if n < 10 {
        (b'0' + n) as char
    } else {
        (b'a' + (n - 10)) as char
    }
}

/// Writes the number of a control character.
fn write_control<W: fmt::Write>(f: &mut fmt::Formatter<W>, c: char) -> fmt::Result
    requires { c < 256 }
    ensures { DisplaysOnOk W.write_str_gives f.old result (Some (control_text c)) f.new }
{
    let code = c as u8;
    let (high, low) = (hex_digit(code / 16), hex_digit(code % 16));
    write!(f, "\\u00{high}{low}")
}

/// Writes a character as it stands in a JSON string.
fn write_char<W: fmt::Write>(f: &mut fmt::Formatter<W>, c: char) -> fmt::Result
    ensures { DisplaysOnOk W.write_str_gives f.old result (Some (spelt_char c)) f.new }
{
    match c {
        '"' | '\\' => write!(f, "\\{c}"),
        '\u{8}' => f.write_str("\\b"),
        '\u{c}' => f.write_str("\\f"),
        '\n' => f.write_str("\\n"),
        '\r' => f.write_str("\\r"),
        '\t' => f.write_str("\\t"),
        c if is_control(c) => write_control(f, c),
        c => f.write_char(c),
    }
}

/// Writes the characters of a text that have room.
fn write_within<W: fmt::Write>(f: &mut fmt::Formatter<W>, text: &str) -> fmt::Result
    ensures { DisplaysOnOk W.write_str_gives f.old result (Some (spelt_within 200 (chars text.now))) f.new }
{
    let mut room = ROOM;
    for c in text.chars() {
        let len = c.len_utf8();
        if len > room {
            return f.write_str("…");
        }
        write_char(f, c)?;
        room -= len;
    }
    Ok(())
}

/// Writes a text between quotation marks.
fn write_quoted<W: fmt::Write>(f: &mut fmt::Formatter<W>, text: &str) -> fmt::Result
    ensures { DisplaysOnOk W.write_str_gives f.old result (Some (quoted_text text.now)) f.new }
{
    f.write_str("\"")?;
    write_within(f, text)?;
    f.write_str("\"")
}

impl fmt::Display for Spelt<'_> {
    ghost use Rattle.std.specs.Prelude.{Some};
    ghost use Rattle.rl_cli.specs.Spelt.{spelt};

    ghost output = { λ s. Some (spelt s.0.now) };

    fn fmt<W: fmt::Write>(&self, f: &mut fmt::Formatter<W>) -> fmt::Result {
        write_quoted(f, self.0)
    }
}
