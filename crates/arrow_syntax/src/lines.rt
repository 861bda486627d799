//! The lines of the program's input, which are commands, comments or blank.
ghost use Rattle.std.specs.Prelude.{◌≡◌, ◌==◌, ◌<◌, IfSome, IsTrue, length, position};
ghost use Rattle.std.specs.List.{list_all};
ghost use Rattle.arrow_syntax.specs.Lines.{is_of_lines};
ghost use Rattle.arrow_syntax.specs.Words.{SplitsAt, is_comment, is_passed_over, is_printable, line_feed, lines_of};
ghost use Rattle.arrow_syntax.specs.Words.{space};

use crate::search::among_first;
use memchr::memchr;

/// Returns the place of the first line feed. Most lines are short, so the first bytes are looked at with no call.
#[inline(always)]
fn line_end(text: &[u8]) -> Option<usize>
    ensures { result ≡ position (λ b. b == line_feed) text.now }
{
    if text.len() >= 32 {
        if let Some(place) = among_first::<32>(b'\n', text) {
            return Some(place);
        }
    }
    memchr(b'\n', text)
}

/// Splits a text at its first line feed. Returns the first line, and what follows the line feed if there is one.
#[inline(always)]
pub fn split_line(text: &[u8]) -> (&[u8], Option<&[u8]>)
    ensures pieces { SplitsAt line_feed text.now result.0.now result.1 }
    ensures shorter { IfSome result.1 (λ after. length after.now < length text.now) }
{
    match line_end(text) {
        Some(place) => (&text[..place], Some(&text[place + 1..])),
        None => (text, None),
    }
}

#[inline(always)]
fn is_comment(line: &[u8]) -> bool
    ensures { result ≡ is_comment line.now }
{
    match line {
        [first, ..] => *first == b'#',
        [] => false,
    }
}

#[inline(always)]
fn is_blank(line: &[u8]) -> bool
    ensures { result ≡ list_all (λ b. b == space) line.now }
{
    line.iter().all(|b| *b == b' ')
}

/// Returns whether a line has no reply: it is a comment, or nothing but spaces. The first byte of most lines is enough.
#[inline(always)]
pub fn is_passed_over(line: &[u8]) -> bool
    ensures { result ≡ is_passed_over line.now }
{
    match line {
        [first, ..] if b'#' < *first => false,
        _ => is_comment(line) || is_blank(line),
    }
}

/// Returns whether a line has only spaces and bytes that words may have.
pub fn is_printable(line: &[u8]) -> bool
    ensures { result ≡ is_printable line.now }
{
    line.iter().all(|b| b' ' <= *b && *b <= b'~')
}

/// Returns whether a byte is a line feed, or one that a line may have.
fn is_of_lines(b: u8) -> bool
    ensures { result ≡ is_of_lines b }
{
    (b' ' <= b && b <= b'~') || b == b'\n'
}

/// Returns whether each line of an input is printable. The loop has no branch, so that the compiler makes vector code
/// of it; a test of each line by itself takes much longer.
pub fn all_printable(input: &[u8]) -> bool
    ensures { IsTrue result → IsTrue (list_all is_printable (lines_of input.now)) }
{
    let mut all = true;
    for b in input {
        all &= is_of_lines(*b);
    }
    all
}
