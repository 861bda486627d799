//! The test and the run of one line, which is found by its name: a line of the narrow table, a line of the wide table
//! behind `wide`, or a copy from one table to the other.
//!
//! Both passes find a line by the same functions, over [`Pass`]. Names of one length are compared together, the most
//! frequent first, and each length has a function: one function with an exit for each of 42 lines is expensive to prove,
//! and a comparison by length first is the fastest.
#![tactic(auto, unfolding(arrow_syntax::specs::Lines::create_lines, arrow_syntax::specs::Lines::read_lines, arrow_syntax::specs::Lines::change_lines, arrow_syntax::specs::Lines::grow_lines, arrow_syntax::specs::Lines::convert_lines, arrow_syntax::specs::Lines::numbered_request, arrow_syntax::specs::Lines::named_request))]

ghost use Rattle.std.specs.Prelude.{◌≡◌, IsFalse, IsTrue, OnOk, not};
ghost use Rattle.std.specs.Option.{option_to_list};
ghost use Rattle.arrow_interpreter.specs.Dispatch.{any_line, len_3_line, len_4_line, len_5_line, len_6_line, len_7_line};
ghost use Rattle.arrow_interpreter.specs.Replies.{RunsRequests};
ghost use Rattle.arrow_syntax.specs.Lines.{line_request, parsed_request, is_bad, on_wide};
ghost use Rattle.arrow_syntax.specs.Words.{is_printable, words_of};

use crate::interpreter::Interpreter;
use crate::line::ParseOffset;
use crate::lines::change::{
    ApplyMaskLine, ApplyValuesLine, CloneLine, DropLine, MaskLine, SetLine, SliceLine, ValuesLine,
    WriteLine,
};
use crate::lines::convert::{
    EqualLine, FilterLine, FreezeLine, IndexesLine, NullableLine, TakeLine, ThawLine, ToLine,
};
use crate::lines::create::{ItemsLine, NewLine, NullLine, PartsLine, SlotsLine};
use crate::lines::grow::{
    ConstantLine, ExtendFromSelfLine, ExtendLine, ExtendValuesLine, PopLine, PushLine,
    PushNullLine, ReserveLine, ShrinkLine,
};
use crate::lines::read::{
    BytesLine, GetLine, HeldLine, IsNullLine, LenLine, ListLine, NullsLine, OffsetsLine, TurnsLine,
    TypeLine, ValueLine,
};
use crate::pass::{Pass, Tested};
use arrow_syntax::fields::first_number;
use arrow_syntax::lines::{is_passed_over, is_printable};
use arrow_syntax::words::{next_word, word_eq};
use std::alloc::AllocError;

/// Returns whether a line is passed over or a command. Nothing is allocated or run. A line that is known to be
/// printable is not tested for that.
#[tactic(auto)]
#[inline(always)]
pub fn is_line(line: &[u8], printable: bool) -> bool
    requires { IsTrue printable → IsTrue (is_printable line.now) }
    ensures { is_bad line.now ≡ not result }
{
    if is_passed_over(line) {
        return true;
    }
    if !printable && !is_printable(line) {
        return false;
    }
    match dispatch_words(&mut Tested, line) {
        Ok(is_command) => is_command,
        Err(_) => false,
    }
}

/// Runs the command that a line is, unless it is passed over, and appends its reply to the text.
#[tactic(auto)]
#[inline(always)]
pub fn run_line(interpreter: &mut Interpreter, line: &[u8]) -> Result<(), AllocError>
    requires { IsFalse (is_bad line.now) }
    ensures { OnOk result (RunsRequests (option_to_list (line_request line.now)) interpreter.old interpreter.new) }
{
    if !is_passed_over(line) {
        dispatch_words(interpreter, line)?;
    }
    Ok(())
}

/// Handles the words of a line.
#[tactic(auto, unfolding(arrow_syntax::specs::Lines::parsed_request, arrow_syntax::specs::Lines::lines_of_narrow_table))]
#[inline(always)]
fn dispatch_words<P: Pass>(pass: &mut P, words: &[u8]) -> Result<bool, AllocError>
    ensures { P.Handles (parsed_request (words_of words.now)) pass.old pass.new result }
{
    let Some((name, words)) = next_word(words) else {
        return pass.none();
    };
    if word_eq(name, b"wide") {
        return dispatch_wide(pass, words);
    }
    if word_eq(name, b"widen") {
        return pass.widen_line(words);
    }
    if word_eq(name, b"narrow") {
        return pass.narrow_line(words);
    }
    dispatch::<i32, P>(pass, name, words)
}

/// Handles the words behind `wide`, which are a line of the wide table.
#[tactic(auto, unfolding(arrow_syntax::specs::Lines::request_of, arrow_syntax::specs::Lines::lines_of_wide_table))]
#[inline(never)]
fn dispatch_wide<P: Pass>(pass: &mut P, words: &[u8]) -> Result<bool, AllocError>
    ensures { P.Handles (on_wide (words_of words.now)) pass.old pass.new result }
{
    let Some((name, words)) = next_word(words) else {
        return pass.none();
    };
    dispatch::<i64, P>(pass, name, words)
}

/// Handles the line of this name on the table of a width, by the words behind the name. All lines go on with a number,
/// which is read here.
#[inline(always)]
fn dispatch<O: ParseOffset, P: Pass>(
    pass: &mut P,
    name: &[u8],
    words: &[u8],
) -> Result<bool, AllocError>
    ensures { P.Handles (any_line O.most O.IS_LARGE O.offset name.now (words_of words.now)) pass.old pass.new result }
{
    let Some((number, words)) = first_number(words) else {
        return pass.none();
    };
    match name.len() {
        0..=3 => dispatch_len_3::<O, P>(pass, name, number, words),
        4 => dispatch_len_4::<O, P>(pass, name, number, words),
        5 => dispatch_len_5::<O, P>(pass, name, number, words),
        6 => dispatch_len_6::<O, P>(pass, name, number, words),
        _ => dispatch_len_7::<O, P>(pass, name, number, words),
    }
}

/// Handles the line of this name, if it is one of up to three letters.
fn dispatch_len_3<O: ParseOffset, P: Pass>(
    pass: &mut P,
    name: &[u8],
    number: usize,
    words: &[u8],
) -> Result<bool, AllocError>
    ensures { P.Handles (len_3_line O.most O.IS_LARGE O.offset name.now number (words_of words.now)) pass.old pass.new result }
{
    if word_eq(name, b"get") {
        return pass.line::<O, GetLine>(number, words);
    }
    if word_eq(name, b"len") {
        return pass.line::<O, LenLine>(number, words);
    }
    if word_eq(name, b"set") {
        return pass.line::<O, SetLine>(number, words);
    }
    if word_eq(name, b"pop") {
        return pass.line::<O, PopLine>(number, words);
    }
    if word_eq(name, b"new") {
        return pass.line::<O, NewLine>(number, words);
    }
    if word_eq(name, b"to") {
        return pass.direct::<O, ToLine>(number, words);
    }
    pass.none()
}

/// Handles the line of this name, if it is one of four letters.
fn dispatch_len_4<O: ParseOffset, P: Pass>(
    pass: &mut P,
    name: &[u8],
    number: usize,
    words: &[u8],
) -> Result<bool, AllocError>
    ensures { P.Handles (len_4_line O.most O.IS_LARGE O.offset name.now number (words_of words.now)) pass.old pass.new result }
{
    if word_eq(name, b"push") {
        return pass.direct::<O, PushLine>(number, words);
    }
    if word_eq(name, b"list") {
        return pass.direct::<O, ListLine>(number, words);
    }
    if word_eq(name, b"drop") {
        return pass.line::<O, DropLine>(number, words);
    }
    if word_eq(name, b"null") {
        return pass.line::<O, NullLine>(number, words);
    }
    if word_eq(name, b"type") {
        return pass.line::<O, TypeLine>(number, words);
    }
    if word_eq(name, b"held") {
        return pass.line::<O, HeldLine>(number, words);
    }
    if word_eq(name, b"mask") {
        return pass.line::<O, MaskLine>(number, words);
    }
    if word_eq(name, b"self") {
        return pass.line::<O, ExtendFromSelfLine>(number, words);
    }
    if word_eq(name, b"thaw") {
        return pass.line::<O, ThawLine>(number, words);
    }
    if word_eq(name, b"take") {
        return pass.line::<O, TakeLine>(number, words);
    }
    pass.none()
}

/// Handles the line of this name, if it is one of five letters.
fn dispatch_len_5<O: ParseOffset, P: Pass>(
    pass: &mut P,
    name: &[u8],
    number: usize,
    words: &[u8],
) -> Result<bool, AllocError>
    ensures { P.Handles (len_5_line O.most O.IS_LARGE O.offset name.now number (words_of words.now)) pass.old pass.new result }
{
    if word_eq(name, b"value") {
        return pass.line::<O, ValueLine>(number, words);
    }
    if word_eq(name, b"slice") {
        return pass.line::<O, SliceLine>(number, words);
    }
    if word_eq(name, b"clone") {
        return pass.line::<O, CloneLine>(number, words);
    }
    if word_eq(name, b"slots") {
        return pass.line::<O, SlotsLine>(number, words);
    }
    if word_eq(name, b"parts") {
        return pass.direct::<O, PartsLine>(number, words);
    }
    if word_eq(name, b"items") {
        return pass.line::<O, ItemsLine>(number, words);
    }
    if word_eq(name, b"nulls") {
        return pass.line::<O, NullsLine>(number, words);
    }
    if word_eq(name, b"turns") {
        return pass.line::<O, TurnsLine>(number, words);
    }
    if word_eq(name, b"bytes") {
        return pass.line::<O, BytesLine>(number, words);
    }
    if word_eq(name, b"write") {
        return pass.line::<O, WriteLine>(number, words);
    }
    if word_eq(name, b"equal") {
        return pass.line::<O, EqualLine>(number, words);
    }
    pass.none()
}

/// Handles the line of this name, if it is one of six letters.
fn dispatch_len_6<O: ParseOffset, P: Pass>(
    pass: &mut P,
    name: &[u8],
    number: usize,
    words: &[u8],
) -> Result<bool, AllocError>
    ensures { P.Handles (len_6_line O.most O.IS_LARGE O.offset name.now number (words_of words.now)) pass.old pass.new result }
{
    if word_eq(name, b"isnull") {
        return pass.line::<O, IsNullLine>(number, words);
    }
    if word_eq(name, b"values") {
        return pass.line::<O, ValuesLine>(number, words);
    }
    if word_eq(name, b"extend") {
        return pass.line::<O, ExtendLine>(number, words);
    }
    if word_eq(name, b"shrink") {
        return pass.line::<O, ShrinkLine>(number, words);
    }
    if word_eq(name, b"freeze") {
        return pass.line::<O, FreezeLine>(number, words);
    }
    if word_eq(name, b"filter") {
        return pass.line::<O, FilterLine>(number, words);
    }
    pass.none()
}

/// Handles the line of this name, if it is one of seven letters or more.
fn dispatch_len_7<O: ParseOffset, P: Pass>(
    pass: &mut P,
    name: &[u8],
    number: usize,
    words: &[u8],
) -> Result<bool, AllocError>
    ensures { P.Handles (len_7_line O.most O.IS_LARGE O.offset name.now number (words_of words.now)) pass.old pass.new result }
{
    if word_eq(name, b"offsets") {
        return pass.line::<O, OffsetsLine>(number, words);
    }
    if word_eq(name, b"pushnull") {
        return pass.line::<O, PushNullLine>(number, words);
    }
    if word_eq(name, b"extendvalues") {
        return pass.line::<O, ExtendValuesLine>(number, words);
    }
    if word_eq(name, b"applymask") {
        return pass.line::<O, ApplyMaskLine>(number, words);
    }
    if word_eq(name, b"applyvalues") {
        return pass.line::<O, ApplyValuesLine>(number, words);
    }
    if word_eq(name, b"constant") {
        return pass.line::<O, ConstantLine>(number, words);
    }
    if word_eq(name, b"reserve") {
        return pass.line::<O, ReserveLine>(number, words);
    }
    if word_eq(name, b"nullable") {
        return pass.line::<O, NullableLine>(number, words);
    }
    if word_eq(name, b"indexes") {
        return pass.line::<O, IndexesLine>(number, words);
    }
    pass.none()
}
