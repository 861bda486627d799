//! Offsets of one width as those of the other.
use tests_support::{Text, assert_text, frozen_offsets, row, tells};

/// Offsets of either width, and what they print.
const EITHER: &[(&[usize], &str)] = &[
    (&[0, 2147483647], "[0, 2147483647]"),
    (&[2147483647, 2147483647], "[2147483647, 2147483647]"),
    (&[3, 3, 5, 9, 9, 200, 70000], "[3, 3, 5, 9, 9, 200, 70000]"),
];

#[test]
fn widths_change_and_numbers_stay(rt: HostRuntime) {
    for (index, (numbers, text)) in EITHER.iter().enumerate() {
        let offsets = frozen_offsets::<i32>(rt.alloc(), *numbers).expect(&rt, "offsets");
        let wide = offsets.widen().expect(&rt, "memory");
        drop(offsets);
        let came = Text::of(format_args!("{:?}", wide.buffer().as_slice()));
        assert_text::text(came, *text).expect(&rt, row("widen", index).as_str());
        let narrow = wide.narrow().expect(&rt, "numbers that fit");
        drop(wide);
        let came = Text::of(format_args!("{:?}", narrow.buffer().as_slice()));
        assert_text::text(came, *text).expect(&rt, row("narrow", index).as_str());
        drop(narrow);
    }
}

/// Offsets that end past the narrow width.
const PAST: &[&[usize]] = &[&[0, 2147483648], &[4294967296]];

#[test]
fn offsets_past_the_narrow_width_overflow(rt: HostRuntime) {
    for (index, numbers) in PAST.iter().enumerate() {
        let offsets = frozen_offsets::<i64>(rt.alloc(), *numbers).expect(&rt, "offsets");
        let answer = tells(offsets.narrow());
        drop(offsets);
        assert_text::value(answer, "overflow").expect(&rt, row("narrow", index).as_str());
    }
}
