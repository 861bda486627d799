//! Reads by index and by iterators over slots, over stored items, and over ranges of both.
use super::*;
use arrow_bytes::{BorrowItem, ByteItem};
use arrow_check::accessor::ArrayAccessor;

/// Compares what arrays and builders of three slots answer by index with a text of the slots, and what they store with
/// that of `AROUND`.
fn check_reads<'a, K: BorrowItem<'a>, O: Offset>(
    rt: &impl Abort,
    (name, expected): (&str, &str),
    array: &'a ByteArray<K, O>,
    builder: &'a MutableByteArray<K, O>,
    values: &'a MutableByteValuesArray<K, O>,
) {
    let name = case_of::<K, O>(name);
    let case = name.as_str();
    let (mut came, mut stored) = (Text::new(), Text::new());
    macro_rules! append_slot {
        ($slot:ident) => {
            came = match $slot {
                Some(item) => came.and(format_args!("{:?} ", item.bytes()), 40),
                None => came.and("_ ", 2),
            }
        };
    }
    assert!(rt; array.len() == 3 && builder.len() == 3 && values.len() == 3);
    assert!(rt; ArrayAccessor::len(builder) == 3);
    for i in 0..3 {
        let (slot, other) = (array.get(i), builder.get(i));
        let marks = (array.is_valid(i), array.is_null(i), builder.is_null(i));
        let expected = (slot.is_some(), slot.is_none(), other.is_none());
        assert_text::value((i, marks), (i, expected)).expect(rt, case);
        append_slot!(slot);
        append_slot!(other);
        let (item, of_builder) = (array.value(i), builder.value(i));
        stored = stored.and(format_args!("{:?} ", item.bytes()), 40);
        stored = stored.and(format_args!("{:?} ", of_builder.bytes()), 40);
        let (accessed, last) = (ArrayAccessor::value(builder, i), values.value(i));
        stored = stored.and(format_args!("{:?} ", accessed.bytes()), 40);
        stored = stored.and(format_args!("{:?} ", last.bytes()), 40);
    }
    assert_text::text(came, expected).expect(rt, case);
    let expected = "[1] [1] [1] [1] [] [] [] [] [4, 4] [4, 4] [4, 4] [4, 4] ";
    assert_text::text(stored, expected).expect(rt, case);
}

/// Reads from both ends an array or a builder of a slot `$one`, a null that stores `$none`, and a slot `$two`.
macro_rules! check_slots {
    ($rt:ident, $case:ident, $array:ident, $one:literal, $none:literal, $two:literal) => {{
        let mut slots = $array.iter();
        let ends = (slots.size_hint(), slots.next(), slots.next_back());
        let expected = concat!("(\"iter\", ((3, Some(3)), Some(Some(", $one, ")), Some(Some(", $two, "))))");
        check_text($rt, $case, ("iter", ends), expected);
        let rest = (slots.size_hint(), slots.next(), slots.next_back(), slots.next());
        let expected = "(\"iter, the null between\", ((1, Some(1)), Some(None), None, None))";
        check_text($rt, $case, ("iter, the null between", rest), expected);
        let mut slots = $array.into_iter();
        let all = (slots.next(), slots.next(), slots.next(), slots.next());
        let expected = concat!("(\"into_iter\", (Some(Some(", $one, ")), Some(None), Some(Some(", $two, ")), None))");
        check_text($rt, $case, ("into_iter", all), expected);
        let mut items = $array.values_iter();
        let ends = (items.size_hint(), items.next(), items.next_back());
        let expected = concat!("(\"values_iter\", ((3, Some(3)), Some(", $one, "), Some(", $two, ")))");
        check_text($rt, $case, ("values_iter", ends), expected);
        let rest = (items.len(), items.nth(0), items.next(), items.next_back());
        let expected = concat!("(\"values_iter, the item between\", (1, Some(", $none, "), None, None))");
        check_text($rt, $case, ("values_iter, the item between", rest), expected);
        let mut items = $array.values_iter();
        let passed = (items.nth(1), items.nth(usize::MAX), items.next(), items.next_back());
        let expected = concat!("(\"nth, and nth past the last\", (Some(", $none, "), None, None, None))");
        check_text($rt, $case, ("nth, and nth past the last", passed), expected);
    }};
}

/// Reads from both ends a builder without nulls of the items `$one`, an empty one, and `$two`.
macro_rules! check_items {
    ($rt:ident, $case:ident, $values:ident, $one:literal, $none:literal, $two:literal) => {{
        let mut items = $values.iter();
        let last = items.next_back();
        check_text($rt, $case, ("the last item", last), concat!("(\"the last item\", Some(", $two, "))"));
        let rest = (items.size_hint(), items.next(), items.next(), items.next_back());
        let expected = concat!("(\"iter, the items before it\", ((2, Some(2)), Some(", $one, "), Some(", $none, "), None))");
        check_text($rt, $case, ("iter, the items before it", rest), expected);
        let mut items = $values.into_iter();
        let last = (items.nth(2), items.next());
        check_text($rt, $case, ("into_iter", last), concat!("(\"into_iter\", (Some(", $two, "), None))"));
    }};
}

/// Reads arrays and builders of bytes, or of text, by iterators.
macro_rules! check_iterators {
    ($rt:ident, $kind:ident, $array:ident, $builder:ident, $values:ident, $one:literal, $none:literal, $two:literal) => {{
        let name = case_of::<$kind, O>("an array by iterators");
        let case = name.as_str();
        check_slots!($rt, case, $array, $one, $none, $two);
        let name = case_of::<$kind, O>("a builder by iterators");
        let case = name.as_str();
        check_slots!($rt, case, $builder, $one, $none, $two);
        let name = case_of::<$kind, O>("a builder without nulls by iterators");
        let case = name.as_str();
        check_items!($rt, case, $values, $one, $none, $two);
    }};
}

fn check_iterators_of_bytes<O: Offset>(
    rt: &impl Abort,
    array: &ByteArray<Binary, O>,
    builder: &MutableByteArray<Binary, O>,
    values: &MutableByteValuesArray<Binary, O>,
) {
    check_iterators!(rt, Binary, array, builder, values, "[1]", "[]", "[4, 4]");
}

fn check_iterators_of_texts<O: Offset>(
    rt: &impl Abort,
    array: &ByteArray<Utf8, O>,
    builder: &MutableByteArray<Utf8, O>,
    values: &MutableByteValuesArray<Utf8, O>,
) {
    check_iterators!(
        rt,
        Utf8,
        array,
        builder,
        values,
        r#""\u{1}""#,
        r#""""#,
        r#""\u{4}\u{4}""#
    );
}

/// Marks over items of one, no and two bytes, and the slots under them, each of an array and a builder.
const MASKS: &[(&str, &str)] = &[
    ("101", "[1] [1] _ _ [4, 4] [4, 4] "),
    ("011", "_ _ [] [] [4, 4] [4, 4] "),
    ("none", "[1] [1] [] [] [4, 4] [4, 4] "),
];

/// Reads slots under several masks by index, and under the first by iterators.
fn check_all<O: Offset>(rt: &(impl Abort + AllocGlobal)) {
    macro_rules! check_reads_of {
        ($kind:ty: $check_iterators:ident) => {
            for (index, (marks, slots)) in MASKS.iter().enumerate() {
                let array: ByteArray<$kind, O> = array_of(rt, (AROUND.0, AROUND.1, *marks));
                let parts: Parts = (AROUND.0, b"\xFF\xFF\x01\x04\x04", *marks);
                let builder: MutableByteArray<$kind, O> = builder_of(rt, parts);
                let values: MutableByteValuesArray<$kind, O> = values_of(rt, parts);
                let name = row(*marks, index);
                check_reads(rt, (name.as_str(), *slots), &array, &builder, &values);
                if *marks == "101" {
                    $check_iterators(rt, &array, &builder, &values);
                }
                drop(values);
                drop(builder);
                drop(array);
            }
        };
    }
    check_reads_of! { Binary: check_iterators_of_bytes }
    check_reads_of! { Utf8: check_iterators_of_texts }
}

#[test]
fn slots_are_read_by_index_and_from_both_ends(rt: HostRuntime) {
    for_both_widths!(check_all, &rt);
}

/// Appends to a text what an iterator over slots returned, `_` for a null and a period at the end.
fn append<T: Copy + Debug>(text: Text, slot: Option<Option<T>>) -> Text {
    match slot {
        Some(Some(item)) => text.and(format_args!("{item:?} "), 40),
        Some(None) => text.and("_ ", 2),
        None => text.and(".", 1),
    }
}

/// A name, an offset and a length, and the slots from either end.
type Range<'a> = (&'a str, usize, usize, &'a str, &'a str);

/// Compares iterators over ranges of slots from both ends.
macro_rules! check_ranges {
    ($rt:ident, $kind:ident, $array:ident, $ranges:ident) => {
        for (index, (case, offset, len, slots, reversed)) in $ranges.iter().enumerate() {
            let name = case_of::<$kind, O>(row(*case, index).as_str());
            let case = name.as_str();
            assert!($rt; *offset <= $array.len() && *len <= $array.len() - *offset);
            let (mut front, mut back) = ($array.iter_range(*offset, *len), $array.iter_range(*offset, *len));
            assert_text::value(front.size_hint(), (*len, Some(*len))).expect($rt, case);
            let mut texts = (Text::new(), Text::new());
            for _ in 0..len.saturating_add(1) {
                texts = (append(texts.0, front.next()), append(texts.1, back.next_back()));
            }
            assert_text::text(texts.0, *slots).expect($rt, case);
            assert_text::text(texts.1, *reversed).expect($rt, case);
        }
    };
}

fn check_texts<O: Offset>(rt: &impl Abort, array: &ByteArray<Utf8, O>, ranges: &[Range<'_>]) {
    check_ranges!(rt, Utf8, array, ranges);
}

fn check_bytes<O: Offset>(rt: &impl Abort, array: &ByteArray<Binary, O>, ranges: &[Range<'_>]) {
    check_ranges!(rt, Binary, array, ranges);
}

/// Compares an iterator over the stored items of a range of two slots from both ends.
macro_rules! check_item_range {
    ($rt:ident, $case:expr, $kind:ident, $array:ident, $offset:expr, $first:literal, $last:literal) => {{
        let mut items = $array.values_iter_range($offset, 2);
        let all = (items.len(), items.next_back(), items.next(), items.next());
        let name = case_of::<$kind, O>($case);
        check_text($rt, name.as_str(), all, concat!("(2, Some(", $last, "), Some(", $first, "), None)"));
    }};
}

fn check_ranges_of_texts<O: Offset>(rt: &(impl Abort + AllocGlobal)) {
    let mut array: ByteArray<Utf8, O> = array_of(rt, (&[1, 3, 3, 4, 7], b"-abcdef-", "1101"));
    let ranges: &[Range<'_>] = &[
        ("all", 0, 4, r#""ab" "" _ "def" ."#, r#""def" _ "" "ab" ."#),
        ("the last two", 2, 2, r#"_ "def" ."#, r#""def" _ ."#),
        ("none in the middle", 1, 0, ".", "."),
        ("none at the end", 4, 0, ".", "."),
    ];
    check_texts(rt, &array, ranges);
    assert!(rt; array.len() == 4);
    check_item_range!(rt, "a null of text", Utf8, array, 2, r#""c""#, r#""def""#);
    array.slice(1, 3);
    check_texts(rt, &array, &[("a null of a slice", 1, 1, "_ .", "_ .")]);
    assert!(rt; array.len() == 3);
    check_item_range!(rt, "items of a slice", Utf8, array, 0, r#""""#, r#""c""#);
    drop(array);
}

fn check_ranges_of_bytes<O: Offset>(rt: &(impl Abort + AllocGlobal)) {
    let mut array: ByteArray<Binary, O> = array_of(rt, (&[1, 3, 3, 4, 7], b"-abcdef-", "none"));
    let ranges: &[Range<'_>] = &[
        ("three", 0, 3, "[97, 98] [] [99] .", "[99] [] [97, 98] ."),
        ("the third", 2, 1, "[99] .", "[99] ."),
        ("none at the end", 4, 0, ".", "."),
    ];
    check_bytes(rt, &array, ranges);
    assert!(rt; array.len() == 4);
    check_item_range!(rt, "items in the middle", Binary, array, 1, "[]", "[99]");
    array.slice(1, 3);
    check_bytes(rt, &array, &[("of a slice", 1, 1, "[99] .", "[99] .")]);
    assert!(rt; array.len() == 3);
    check_item_range!(
        rt,
        "items of a slice",
        Binary,
        array,
        1,
        "[99]",
        "[100, 101, 102]"
    );
    drop(array);
}

#[test]
fn ranges_are_read_from_both_ends(rt: HostRuntime) {
    for_both_widths!(check_ranges_of_texts, &rt);
    for_both_widths!(check_ranges_of_bytes, &rt);
}
