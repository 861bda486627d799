//! Text in quotes: what is escaped, and what is written as it is.
use arrow_types::quoted::write_quoted;
use std::fmt;
use tests_support::{assert_text, row};

/// A text that prints in quotes.
#[derive(Clone, Copy)]
struct InQuotes(&'static str);

impl fmt::Display for InQuotes {
    fn fmt<W: fmt::Write>(&self, f: &mut fmt::Formatter<W>) -> fmt::Result {
        write_quoted(f, self.0)
    }
}

/// A name, a text, and the text in quotes.
#[rattlefmt::skip]
const TEXTS: &[(&str, &str, &str)] = &[
    ("no character", "", "\"\""),
    ("quotes and a backslash", "\"it's\\", "\"\\\"it's\\\\\""),
    ("controls with a letter", "\0\t\n\r", "\"\\0\\t\\n\\r\""),
    ("other controls", "\u{1}\u{1f}\u{7f}", "\"\\u{1}\\u{1f}\\u{7f}\""),
    ("beside controls", " ~\u{80}", "\" ~\u{80}\""),
    ("two, three and four bytes", "é\u{301}名😀", "\"é\u{301}名😀\""),
];

#[test]
fn quotes_backslashes_and_controls_are_escaped(rt: HostRuntime) {
    for (index, (case, text, expected)) in TEXTS.iter().enumerate() {
        let came = assert_text::display(&InQuotes(*text), *expected);
        came.expect(&rt, row(*case, index).as_str());
    }
}
