//! Checks that the items between offsets are text, by one test of all their bytes and a look at each offset between the
//! first and the last.
ghost use Rattle.std.specs.Prelude.{◌≡◌, ◌+◌, ◌-◌, ◌≤◌, ◌↔◌, IfErr, IsTrue, OnOk, length};
ghost use Rattle.arrow_memory.specs.Offsets.{last_of, numbers_of};
ghost use Rattle.arrow_check.specs.Bounds.{AreLegal};
ghost use Rattle.arrow_check.specs.Reading.{LooksAtMost, ReadsAtMost, after_ascii, after_looks, after_whole_test};
ghost use Rattle.arrow_check.specs.Texts.{CutTexts, RefusesText};
ghost use Rattle.arrow_check.specs.Utf8.{IsWellFormed};
ghost use Rattle.arrow_check.specs.Windows.{window_of, inner_before_end, AllBegin, InnerCutBetween, IsContinuation};
ghost use Rattle.arrow_check.specs.Windows.{after_cut_test, StopsAtWindow, StopsAfterAscii, ReadsOnceFor};
ghost use Rattle.arrow_check.specs.Windows.{LieAt, LieBefore, PassesWhole};
ghost use Rattle.arrow_check.specs.AsciiText.{TellsAscii};

use crate::bounds::{check_bounds, last_number, number_at};
use crate::cost::TextBytes;
use crate::judge::Judge;
use arrow_types::error::Error;
use arrow_types::offset::Offset;

/// Returns whether the window between the first and the last offset is ASCII, by one test.
#[inline(always)]
fn is_ascii_window<O: Offset, J: Judge>(offsets: &[O], text: &mut J) -> bool
    requires legal { AreLegal O.number offsets.now }
    requires within { last_of (numbers_of O.number offsets.now) ≤ length (J.reading text.old).bytes }
    ensures answer { TellsAscii result (window_of (numbers_of O.number offsets.now) (J.reading text.old).bytes) }
    ensures counted { J.reading text.new ≡ after_ascii (J.reading text.old) }
{
    let start = number_at(offsets, 0);
    let end = last_number(offsets);
    text.ascii(start, end - start)
}

/// Returns whether the judge accepts the window between the first and the last offset, by one test.
#[inline(always)]
fn is_text_window<O: Offset, J: Judge>(offsets: &[O], text: &mut J) -> bool
    requires legal { AreLegal O.number offsets.now }
    requires within { last_of (numbers_of O.number offsets.now) ≤ length (J.reading text.old).bytes }
    ensures answer { IsTrue result
        ↔ J.accepts (window_of (numbers_of O.number offsets.now) (J.reading text.old).bytes) }
    ensures counted { J.reading text.new ≡ after_whole_test (J.reading text.old) }
{
    let start = number_at(offsets, 0);
    let end = last_number(offsets);
    text.whole_test(start, end - start)
}

/// Returns how many inner offsets lie before `end`, which no offset is above. Offsets never fall,
/// so the others are the last ones.
#[inline(always)]
fn count_before<O: Offset>(offsets: &[O], end: usize) -> usize
    requires legal { AreLegal O.number offsets.now }
    requires end { last_of (numbers_of O.number offsets.now) ≤ end }
    ensures inner { result ≤ length offsets.now - 2 }
    ensures before { LieBefore 1 (result + 1) end (numbers_of O.number offsets.now) }
    ensures behind { LieAt (result + 1) end (numbers_of O.number offsets.now) }
{
    let mut count = offsets.len().saturating_sub(2);
    while count > 0 && number_at(offsets, count) == end {
        count -= 1;
    }
    count
}

/// Returns whether a byte is a continuation byte.
#[inline(always)]
fn goes_on(byte: u8) -> bool
    ensures { IsTrue result ↔ IsContinuation byte }
{
    byte >= 0x80 && byte < 0xC0
}

/// Returns whether a character may begin at each offset from the one at `from` up to the one at
/// `upto`. Looks at the byte of each, even after one at which none may begin, so that nothing
/// branches on a byte.
#[inline(always)]
fn all_begin<O: Offset, J: Judge>(offsets: &[O], from: usize, upto: usize, text: &mut J) -> bool
    requires legal { AreLegal O.number offsets.now }
    requires order { from ≤ upto }
    requires some { upto ≤ length offsets.now }
    requires within { LieBefore from upto (length (J.reading text.old).bytes) (numbers_of O.number offsets.now) }
    ensures answer { IsTrue result ↔ AllBegin from upto (numbers_of O.number offsets.now) (J.reading text.old).bytes }
    ensures counted { J.reading text.new ≡ after_looks (upto - from) (J.reading text.old) }
{
    let mut begins = true;
    // From 0 on, so that a constant distance is seen to be one.
    for k in 0..upto - from {
        begins &= !goes_on(text.look(number_at(offsets, from + k)));
    }
    begins
}

/// Returns what `all_begin` does, eight offsets at a time, whose looks are counted by one addition.
#[inline(always)]
fn all_begin_by_eights<O: Offset, J: Judge>(
    offsets: &[O],
    from: usize,
    upto: usize,
    text: &mut J,
) -> bool
    requires legal { AreLegal O.number offsets.now }
    requires order { from ≤ upto }
    requires some { upto ≤ length offsets.now }
    requires within { LieBefore from upto (length (J.reading text.old).bytes) (numbers_of O.number offsets.now) }
    ensures answer { IsTrue result ↔ AllBegin from upto (numbers_of O.number offsets.now) (J.reading text.old).bytes }
    ensures counted { J.reading text.new ≡ after_looks (upto - from) (J.reading text.old) }
{
    let mut begins = true;
    let mut done = from;
    while upto - done >= 8 {
        begins &= all_begin(offsets, done, done + 8, text);
        done += 8;
    }
    begins & all_begin(offsets, done, upto, text)
}

/// Returns whether the inner offsets cut no character of the window, by one look at each inner
/// offset before its end.
#[inline(always)]
fn is_cut_between<O: Offset, J: Judge>(offsets: &[O], text: &mut J) -> bool
    requires legal { AreLegal O.number offsets.now }
    requires within { last_of (numbers_of O.number offsets.now) ≤ length (J.reading text.old).bytes }
    ensures answer { IsTrue result ↔ InnerCutBetween (numbers_of O.number offsets.now) (J.reading text.old).bytes }
    ensures counted { J.reading text.new ≡ after_looks (inner_before_end (numbers_of O.number offsets.now))
        (J.reading text.old) }
    ensures few { inner_before_end (numbers_of O.number offsets.now) ≤ length offsets.now - 2 }
{
    let end = last_number(offsets);
    let count = count_before(offsets, end);
    all_begin_by_eights(offsets, 1, count + 1, text)
}

/// Returns whether the judge accepts the window and the inner offsets cut no character of it: by
/// one whole test, and if it passes one look at each inner offset before the window's end.
#[inline(always)]
fn is_cut_text<O: Offset, J: Judge>(offsets: &[O], text: &mut J) -> bool
    requires legal { AreLegal O.number offsets.now }
    requires within { last_of (numbers_of O.number offsets.now) ≤ length (J.reading text.old).bytes }
    ensures answer { IsTrue result ↔ PassesWhole J.accepts (numbers_of O.number offsets.now)
        (J.reading text.old).bytes }
    ensures counted { LooksAtMost (length offsets.now - 2) (after_whole_test (J.reading text.old))
        (J.reading text.new) }
    ensures looks { IsTrue result → J.reading text.new ≡ after_cut_test (numbers_of O.number offsets.now)
        (J.reading text.old) }
    ensures rejected { StopsAtWindow J.accepts (numbers_of O.number offsets.now) (J.reading text.old)
        (J.reading text.new) }
{
    is_text_window(offsets, text) && is_cut_between(offsets, text)
}

/// Checks that legal offsets lie within the bytes, that the judge accepts the window from the first
/// to the last, and that each inner offset is the window's end or stands at a byte that is no
/// continuation byte. A judge whose rule is Unicode's (Table 3-7) then accepts each item by itself,
/// as `laws::texts_by_window` states. Bytes before the first offset and after the last are not
/// read.
///
/// It makes at most one ASCII test, at most one whole test, and at most one look for each inner
/// offset: no act if the last offset is past the bytes; one ASCII test alone if the window is
/// ASCII; otherwise a whole test too, and the looks if that passes.
///
/// # Errors
/// - `OutOfSpec` if the last offset is above the number of bytes.
/// - Otherwise `OutOfSpec` if the window is not accepted or an inner offset cuts a character.
#[inline(always)]
pub fn check_text<O: Offset, J: Judge>(offsets: &[O], text: &mut J) -> Result<(), Error>
    requires { AreLegal O.number offsets.now }
    ensures ok { OnOk result (PassesWhole J.accepts (numbers_of O.number offsets.now) (J.reading text.old).bytes) }
    ensures err { IfErr result (RefusesText (PassesWhole J.accepts) (numbers_of O.number offsets.now)
        (J.reading text.old).bytes) }
    ensures counted { ReadsAtMost 1 1 (length offsets.now - 2) (J.reading text.old) (J.reading text.new) }
    ensures exact { ReadsOnceFor (PassesWhole J.accepts) (numbers_of O.number offsets.now) (J.reading text.old)
        (J.reading text.new) }
    ensures rejected { StopsAfterAscii J.accepts (numbers_of O.number offsets.now) (J.reading text.old)
        (J.reading text.new) }
{
    check_bounds(offsets, text.len())?;
    if is_ascii_window(offsets, text) {
        return Ok(());
    }
    if !is_cut_text(offsets, text) {
        return Err(Error::OutOfSpec("every text between two offsets must be UTF-8"));
    }
    Ok(())
}

/// Checks that legal offsets lie within the bytes and that every item between two of them is UTF-8
/// by itself (Unicode Standard, Table 3-7), as [`check_text`] with the judge whose rule is
/// Unicode's. Bytes before the first offset and after the last are not read.
///
/// # Errors
/// - `OutOfSpec` if the last offset is above the number of bytes.
/// - Otherwise `OutOfSpec` if an item is not UTF-8.
#[inline(always)]
pub fn check_utf8<O: Offset>(offsets: &[O], text: &mut TextBytes<'_>) -> Result<(), Error>
    requires { AreLegal O.number offsets.now }
    ensures ok { OnOk result (CutTexts (numbers_of O.number offsets.now) text.old.bytes) }
    ensures err { IfErr result (RefusesText CutTexts (numbers_of O.number offsets.now) text.old.bytes) }
    ensures counted { ReadsAtMost 1 1 (length offsets.now - 2) text.old text.new }
    ensures exact { ReadsOnceFor CutTexts (numbers_of O.number offsets.now) text.old text.new }
    ensures rejected { StopsAfterAscii IsWellFormed (numbers_of O.number offsets.now) text.old text.new }
{
    check_text(offsets, text)
}
