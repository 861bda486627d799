//! The checks of calls to which memory may be refused. A call has to do what it should, or, if it is refused memory, to
//! leave what was there, and to do what it should when it is called once more. A test that met a refusal ends with the
//! word `refused`. What a test begins with is created by `expect` with that word, which adds no exit to the test. A wrong
//! answer aborts it, with the case, what was expected and what came.
use arrow_types::error::Error;
use std::fmt::Debug;
use std::process::Abort;
use std::test::Fail;
use tests_support::{Text, assert_text};

/// Compares the text of what each call returns, as a function writes it, with that of its row. All calls are made
/// twice, and one of them may be refused memory. Returns whether one was. A row is `function: call => text;`.
macro_rules! results {
    ($rt:expr; $($show:ident: $call:expr => $text:expr;)*) => {{
        let mut is_any_refused = false;
        for _ in 0..2 {
            $(
                let (case, answer) = (stringify!($call), $call);
                is_any_refused = crate::refusal::check_result($rt, case, is_any_refused, answer, $show, $text);
            )*
        }
        is_any_refused
    }};
}

/// Compares the text of a new value after each call with that of its row, and after a refusal with that before it, or,
/// in a row of an extension, with a beginning of what it appends. Returns whether a call was refused.
macro_rules! changes {
    ($rt:expr, $value:ident: $made:expr, $show:expr, $before:expr; $($row:tt)*) => {
        crate::refusal::changes! {
            @ ($rt, $value: $made, $show, $before) [0 1 2 3 4 5 6 7 8 9 10 11 12 13 14] () () $($row)*
        }
    };
    (@ ($rt:expr, $value:ident: $made:expr, $show:expr, $before:expr)
        [$($unused:literal)*] ($($arm:tt)*) ($($row:tt)*)) => {
        crate::refusal::check_changes(
            $rt,
            $made.expect($rt, "refused"),
            |$value, step| {
                let answer = match step {
                    None => {
                        *$value = $made.expect($rt, "refused");
                        Ok(())
                    }
                    Some(index) => match index {
                        $($arm)*
                        _ => Err(arrow_types::error::Error::Overflow),
                    },
                };
                (tests_support::Text::of(format_args!("{answer:?}")), $show($value))
            },
            $before,
            &[$($row)*],
        )
    };
    (@ $arguments:tt [$index:literal $($unused:literal)*] ($($arm:tt)*) ($($made:tt)*)
        $call:expr => $text:expr; $($row:tt)*) => {
        crate::refusal::changes! {
            @ $arguments [$($unused)*] ($($arm)* $index => $call,)
            ($($made)* (stringify!($call), $text, crate::refusal::Row::Change),) $($row)*
        }
    };
    (@ $arguments:tt [$index:literal $($unused:literal)*] ($($arm:tt)*) ($($made:tt)*)
        $call:expr => $text:expr, Extension; $($row:tt)*) => {
        crate::refusal::changes! {
            @ $arguments [$($unused)*] ($($arm)* $index => $call,)
            ($($made)* (stringify!($call), $text, crate::refusal::Row::Extension),) $($row)*
        }
    };
}

/// Pushes into the room that each call makes, for which no memory may be asked.
macro_rules! pushes {
    ($rt:expr, $value:ident: $made:expr; $($room:expr => $count:literal of $push:expr;)*) => {{
        let mut $value = $made.expect($rt, "refused");
        $(
            $room.expect($rt, "refused");
            for _ in 0..$count {
                $push.expect($rt, stringify!($push, in the room of $room));
            }
        )*
        drop($value);
    }};
}

pub(crate) use changes;
pub(crate) use pushes;
pub(crate) use results;

/// Ends a test: with the word `refused` if memory was refused.
pub(crate) fn end(is_refused: bool) -> Result<(), Fail> {
    if is_refused {
        return Err(Fail::from("refused"));
    }
    Ok(())
}

/// Returns whether an answer is out of memory, and aborts at another error.
pub(crate) fn is_refused<V: Drop, E: Debug + Drop>(
    rt: &impl Abort,
    case: &str,
    answer: Result<V, E>,
) -> bool {
    match answer {
        Ok(value) => {
            drop(value);
            false
        }
        Err(error) => {
            let came = Text::of(format_args!("{error:?}"));
            assert_text::text(came, "OutOfMemory").expect(rt, case);
            true
        }
    }
}

/// Checks that an answer is out of memory.
pub(crate) fn check_refusal<V: Drop, E: Debug + Drop>(
    rt: &impl Abort,
    case: &str,
    answer: Result<V, E>,
) {
    let came = if is_refused(rt, case, answer) {
        "OutOfMemory"
    } else {
        "a value"
    };
    assert_text::value(came, "OutOfMemory").expect(rt, case);
}

/// Compares a text with what is expected, or what is right if memory is refused. Returns whether it was.
pub(crate) fn check_text(
    rt: &impl Abort,
    case: &str,
    came: Text,
    expected: &str,
    refused: &[&str],
) -> bool {
    for text in refused {
        if came.as_str() == *text {
            return true;
        }
    }
    assert_text::text(came, expected).expect(rt, case);
    false
}

/// Compares the text of what a call returned with another. It may be out of memory unless a call before it was. Returns
/// whether it or one before it was.
pub(crate) fn check_result<V: Drop, F: FnOnce(&V) -> Text + Drop>(
    rt: &impl Abort,
    case: &str,
    is_any_refused: bool,
    answer: Result<V, Error>,
    show: F,
    expected: &str,
) -> bool
    requires { F.IsAlwaysCallable show }
{
    let came = match answer {
        Ok(value) => {
            let written = show(&value);
            drop(value);
            written
        }
        Err(error) => {
            drop(show);
            if !is_any_refused && error == Error::OutOfMemory {
                return true;
            }
            Text::of(format_args!("{error:?}"))
        }
    };
    assert_text::text(came, expected).expect(rt, case);
    is_any_refused
}

/// Which text a row has.
#[derive(Clone, Copy)]
pub(crate) enum Row {
    /// A change, which leaves the value if it is refused memory.
    Change,
    /// An extension, which leaves the value and a beginning of what it appends.
    Extension,
}

/// Returns whether the text of an answer is out of memory, and aborts at another error.
fn is_answer_refused(rt: &impl Abort, case: &str, answer: Text) -> bool {
    if answer.as_str() == "Ok(())" {
        return false;
    }
    assert_text::text(answer, "Err(OutOfMemory)").expect(rt, case);
    true
}

/// Compares what a refused call left with the value before it, or with a beginning of the text of an extension. Returns
/// the text of the value after the same call on what is left.
fn check_left(rt: &impl Abort, row: Row, case: &str, left: Text, before: &str, text: &str) -> Text {
    let case = Text::of(format_args!("{case}, refused"));
    let Row::Extension = row else {
        assert_text::text(left, before).expect(rt, case.as_str());
        return Text::of(text);
    };
    let (begun, added) = (
        left.as_str().len(),
        text.get(before.len()..).unwrap_or("no extension"),
    );
    let is_slot = matches!(text.as_bytes().get(begun), None | Some(b' '));
    if !is_slot || begun < before.len() || !text.starts_with(left.as_str()) {
        assert_text::text(left, text).expect(rt, case.as_str());
    }
    left.and(added, 400)
}

/// Compares what each call makes of a new value with a text, and, if it is refused memory, what it leaves, and what it
/// then makes of that. A call without an index makes the value anew. Returns whether a call was refused.
pub(crate) fn check_changes<V: Drop, F: FnMut(&mut V, Option<usize>) -> (Text, Text)>(
    rt: &impl Abort,
    mut value: V,
    mut call: F,
    before: &str,
    rows: &[(&str, &str, Row)],
) -> bool
    requires { F.IsAlwaysCallable call }
{
    let mut is_any_refused = false;
    for (index, (case, text, row)) in rows.iter().enumerate() {
        let _ = call(&mut value, None);
        let (answer, mut came) = call(&mut value, Some(index));
        let mut expected = Text::of(*text);
        if is_answer_refused(rt, *case, answer) {
            is_any_refused = true;
            expected = check_left(rt, *row, *case, came, before, *text);
            let (again, last) = call(&mut value, Some(index));
            assert_text::text(again, "Ok(())").expect(rt, *case);
            came = last;
        }
        assert_text::text(came, expected.as_str()).expect(rt, *case);
    }
    drop(value);
    is_any_refused
}
