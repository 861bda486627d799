//! Iterators over a range of slots.
use super::*;

const SLOTS: &[Option<bool>] = &[
    Some(true),
    None,
    Some(false),
    Some(true),
    Some(true),
    None,
    None,
    Some(false),
    Some(true),
    None,
    Some(false),
];

const VALID: &[Option<bool>] = &[Some(true), Some(false), Some(false), Some(true), Some(true)];

/// A name, the slots of an array, where a slice of it and a range of that slice begin, and the
/// slots of that range from the front and from the back.
type Case = (
    &'static str,
    &'static [Option<bool>],
    usize,
    usize,
    &'static str,
    &'static str,
);

const CASES: &[Case] = &[
    ("all", SLOTS, 0, 0, "t_ftt__ft_f", "f_tf__ttf_t"),
    ("in the middle", SLOTS, 0, 1, "_ft", "tf_"),
    ("at the end", SLOTS, 0, 7, "ft_f", "f_tf"),
    ("none", SLOTS, 0, 0, "", ""),
    ("none at the end", SLOTS, 0, 11, "", ""),
    ("all of a slice", SLOTS, 1, 0, "_ftt__ft_f", "f_tf__ttf_"),
    ("in a slice", SLOTS, 1, 6, "ft_", "_tf"),
    ("all, without a mask", VALID, 0, 0, "tfftt", "ttfft"),
    ("in the middle, without a mask", VALID, 0, 1, "fft", "tff"),
    ("none, without a mask", VALID, 0, 5, "", ""),
    ("in a slice, without a mask", VALID, 1, 2, "tt", "tt"),
];

#[test]
fn ranges_are_read_from_both_ends(rt: HostRuntime) {
    for (index, (case, slots, start, offset, expected, reversed)) in CASES.iter().enumerate() {
        let name = row(*case, index);
        let case = name.as_str();
        let mut array = BooleanArray::from(rt.alloc(), *slots).expect(&rt, "memory");
        assert!(rt; *start <= array.len());
        array.slice(*start, array.len() - *start);
        let (offset, len) = (*offset, expected.len());
        assert!(rt; offset <= array.len() && len <= array.len() - offset);
        let range = array.iter_range(offset, len);
        assert_text::value(range.size_hint(), (len, Some(len))).expect(&rt, case);
        assert_text::bools(range, *expected).expect(&rt, case);
        assert_text::bools(array.iter_range(offset, len).rev(), *reversed).expect(&rt, case);
        drop(array);
    }
}
