//! Equality and text of buffers and of offsets, and values of a buffer by index.
use tests_support::{Text, assert_text, buffer_of, frozen_offsets, offsets_of, row, row_of};

/// A name, the values of two buffers, and whether they are equal.
const BUFFERS: &[(&str, &[i64], &[i64], bool)] = &[
    ("none", &[], &[], true),
    ("equal", &[7, -8], &[7, -8], true),
    ("another value", &[7, -8], &[7, 8], false),
    ("one more", &[7], &[7, 0], false),
];

#[test]
fn buffers_are_equal_if_they_have_the_same_values(rt: HostRuntime) {
    for (index, (case, first, second, expected)) in BUFFERS.iter().enumerate() {
        let first = buffer_of(rt.alloc(), *first).expect(&rt, "memory");
        let second = buffer_of(rt.alloc(), *second).expect(&rt, "memory");
        let are_equal = first == second;
        drop(first);
        drop(second);
        assert_text::value(are_equal, *expected).expect(&rt, row(*case, index).as_str());
    }
}

/// A name, the numbers of two lists of offsets, and whether they are equal.
const OFFSETS: &[(&str, &[usize], &[usize], bool)] = &[
    ("of no slot", &[0], &[0], true),
    ("equal", &[0, 3, 3], &[0, 3, 3], true),
    ("another first", &[1, 3], &[0, 3], false),
    ("one more", &[0, 3], &[0, 3, 3], false),
];

#[test]
fn offsets_are_equal_if_they_have_the_same_numbers(rt: HostRuntime) {
    for (index, (case, first, second, expected)) in OFFSETS.iter().enumerate() {
        let growing = offsets_of::<i32>(rt.alloc(), *first).expect(&rt, "offsets");
        let other = offsets_of::<i32>(rt.alloc(), *second).expect(&rt, "offsets");
        let are_equal = growing == other;
        drop(growing);
        drop(other);
        let name = row_of(*case, "growing", index);
        assert_text::value(are_equal, *expected).expect(&rt, name.as_str());
        let frozen = frozen_offsets::<i64>(rt.alloc(), *first).expect(&rt, "offsets");
        let other = frozen_offsets::<i64>(rt.alloc(), *second).expect(&rt, "offsets");
        let are_equal = frozen == other;
        drop(frozen);
        drop(other);
        let name = row_of(*case, "frozen", index);
        assert_text::value(are_equal, *expected).expect(&rt, name.as_str());
    }
}

#[test]
fn slices_and_offsets_are_printed_from_their_first_number(rt: HostRuntime) {
    let mut buffer = buffer_of::<i64>(rt.alloc(), &[7, -8, 9]).expect(&rt, "memory");
    assert_text::debug(&buffer, "[7, -8, 9]").expect(&rt, "all");
    assert_text::display(&buffer, "[7, -8, 9]").expect(&rt, "all");
    assert!(rt; buffer.len() == 3);
    buffer.slice(1, 1);
    let text = Text::of(format_args!("{buffer:?}"));
    assert!(rt; buffer.len() == 1);
    let value = buffer[0];
    drop(buffer);
    assert_text::text(text, "[-8]").expect(&rt, "a slice");
    assert_text::value(value, -8).expect(&rt, "by index");
    let growing = offsets_of::<i32>(rt.alloc(), &[0, 3, 12]).expect(&rt, "offsets");
    assert_text::debug(&growing, "Offsets([0, 3, 12])").expect(&rt, "growing");
    assert_text::display(&growing, "Offsets([0, 3, 12])").expect(&rt, "growing");
    drop(growing);
    let frozen = frozen_offsets::<i64>(rt.alloc(), &[5]).expect(&rt, "offsets");
    assert_text::debug(&frozen, "OffsetsBuffer([5])").expect(&rt, "frozen");
    assert_text::display(&frozen, "OffsetsBuffer([5])").expect(&rt, "frozen");
    drop(frozen);
}
