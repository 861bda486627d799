//! What errors print, and what refused memory becomes.
use arrow_types::error::Error;
use std::alloc::AllocFailed;
use tests_support::{Text, assert_text, row};

/// A name, an error, what it prints, and whether it equals that of a rule.
#[rattlefmt::skip]
const ERRORS: &[(&str, Error, &str, bool)] = &[
    ("the same text", Error::OutOfSpec("a rule"), "a rule", true),
    ("another text", Error::OutOfSpec("a role"), "a role", false),
    ("offsets that fall", Error::OutOfSpec("offsets must never fall"), "offsets must never fall", false),
    ("an overflow", Error::Overflow, "overflow", false),
    ("refused memory", Error::OutOfMemory, "out of memory", false),
];

#[test]
fn errors_are_printed_and_compared_by_their_texts(rt: HostRuntime) {
    for (index, (case, error, text, expected)) in ERRORS.iter().enumerate() {
        let printed = error.to_string(rt.alloc()).expect(&rt, "memory");
        let came = Text::of(printed.as_str());
        drop(printed);
        let are_equal = *error == Error::OutOfSpec("a rule");
        assert_text::text(came, *text).expect(&rt, row(*case, index).as_str());
        assert_text::value(are_equal, *expected).expect(&rt, row(*case, index).as_str());
    }
}

#[test]
fn refused_memory_is_out_of_memory(rt: HostRuntime) {
    let mut items = Vec::<i64>::new(rt.alloc());
    let answer = items.reserve(usize::MAX);
    drop(items);
    let refused = answer.expect_err(&rt, "room for all");
    assert_text::value(Error::from(refused), Error::OutOfMemory).expect(&rt, "a reservation");
    let failed = AllocFailed { value: 7_i32 };
    assert_text::value(Error::from(failed), Error::OutOfMemory).expect(&rt, "a value");
}
