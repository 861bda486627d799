//! Text in quotes: the text of slots, and of names in data types. Rust's `{:?}` of text has a contract for ASCII alone;
//! here every text has one, and characters past ASCII stay as they are.
ghost use Rattle.std.specs.Prelude.{Some, string_bytes};
ghost use Rattle.std.specs.Char.{encode_utf8};
ghost use Rattle.std.specs.Fmt.{WritesOnOk};
ghost use Rattle.arrow_types.specs.QuotedText.{escaped_text, quoted_text, quoted_option};
ghost use Rattle.arrow_types.specs.Types.{text_bytes};

use std::fmt;

/// Writes a character of a text in quotes: with a backslash if it is a quote, a backslash or a control character of
/// ASCII, and else as it is.
fn write_escaped<W: fmt::Write>(f: &mut fmt::Formatter<W>, c: char) -> fmt::Result
    ensures { WritesOnOk W.write_str_gives f.old result (escaped_text (encode_utf8 c)) f.new }
{
    let code = c as u32;
    let is_control = (code < 32) | (code == 127);
    match c {
        '"' => f.write_str("\\\""),
        '\\' => f.write_str("\\\\"),
        '\0' => f.write_str("\\0"),
        '\t' => f.write_str("\\t"),
        '\n' => f.write_str("\\n"),
        '\r' => f.write_str("\\r"),
        _ if is_control => write!(f, "\\u{{{code:x}}}"),
        _ => f.write_char(c),
    }
}

/// Writes a text in quotes, as in `"zh\u{e9}\n"`: with a backslash before quotes and backslashes, and in place of
/// control characters of ASCII. Every other character is written as it is.
///
/// # Errors
/// `Error` if the formatter fails.
pub fn write_quoted<W: fmt::Write>(f: &mut fmt::Formatter<W>, text: &str) -> fmt::Result
    ensures { WritesOnOk W.write_str_gives f.old result (quoted_text text.now) f.new }
{
    f.write_str("\"")?;
    for c in text.chars() {
        write_escaped(f, c)?;
    }
    f.write_str("\"")
}

/// A text that prints in quotes.
#[derive(Clone, Copy)]
pub(crate) struct QuotedText<'a>(pub(crate) &'a String);

impl<'a> fmt::Display for QuotedText<'a> {
    ghost output = { λ x. Some (quoted_text (string_bytes x.0.now)) };

    fn fmt<W: fmt::Write>(&self, f: &mut fmt::Formatter<W>) -> fmt::Result {
        write_quoted(f, self.0.as_str())
    }
}

/// A text that prints in quotes, as `Some("UTC")`, or as `None`.
#[derive(Clone, Copy)]
pub(crate) struct QuotedOption<'a>(pub(crate) &'a Option<String>);

impl<'a> fmt::Display for QuotedOption<'a> {
    ghost output = { λ x. Some (quoted_option (text_bytes x.0.now)) };

    fn fmt<W: fmt::Write>(&self, f: &mut fmt::Formatter<W>) -> fmt::Result {
        match self.0 {
            None => f.write_str("None"),
            Some(text) => write!(f, "Some({})", QuotedText(text)),
        }
    }
}
