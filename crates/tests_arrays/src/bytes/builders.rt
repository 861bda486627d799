//! Builders with and without nulls: how they grow and shrink, and are copied and compared.
use super::*;

/// Pushes slots, items and nulls.
fn check_pushes<O: Offset>(rt: &(impl Abort + AllocGlobal)) {
    macro_rules! check_pushes_of {
        ($kind:ty, $e_acute:expr, $c:expr) => {{
            let mut builder = MutableByteArray::<$kind, O>::new(rt.alloc()).expect(rt, "memory");
            builder.push(Some($e_acute)).expect(rt, "push");
            builder.push(None).expect(rt, "push of a null");
            builder.try_push(Some($c)).expect(rt, "try_push");
            builder.try_push(None).expect(rt, "try_push of a null");
            builder.push_null().expect(rt, "push_null");
            check_builder(rt, "push, try_push, push_null", Ok(builder), (&[0, 2, 2, 3, 3, 3], b"\xC3\xA9c", "10100"));
            let mut values = MutableByteValuesArray::<$kind, O>::new(rt.alloc()).expect(rt, "memory");
            values.push($c).expect(rt, "push without nulls");
            values.try_push($e_acute).expect(rt, "try_push without nulls");
            values.push_null().expect(rt, "push_null without nulls");
            check_values(rt, "without nulls", Ok(values), (&[0, 1, 3, 3], b"c\xC3\xA9", "none"));
        }};
    }
    check_pushes_of!(Binary, b"\xC3\xA9".as_slice(), b"c".as_slice());
    check_pushes_of!(Utf8, "é", "c");
}

#[test]
fn nulls_that_are_pushed_store_no_byte(rt: HostRuntime) {
    for_both_widths!(check_pushes, &rt);
}

/// Compares a popped item with a text, `None` for none, and drops it.
fn check_popped<K: ByteKind, O: Offset>(
    rt: &impl Abort,
    case: &str,
    answer: Result<Option<K::Owned>, Error>,
    expected: &str,
)
where
    K::Owned: Debug,
{
    let name = case_of::<K, O>(case);
    let item = answer.expect(rt, name.as_str());
    check_text(rt, name.as_str(), item, expected);
}

/// Pops slots and items, which print as the texts of the item `there`, of `é`, and of the empty item.
fn check_pops<K: ByteKind, O: Offset>(rt: &(impl Abort + AllocGlobal), items: (&str, &str, &str))
where
    K::Owned: Debug,
{
    let (there, e_acute, empty) = items;
    let mut builder: MutableByteArray<K, O> = builder_of(rt, SLOTS);
    check_popped::<K, O>(rt, "the last slot", builder.pop(), there);
    check_popped::<K, O>(rt, "a null", builder.pop(), "None");
    check_builder(rt, "one slot", builder.clone(), (&[0, 2], b"\xC3\xA9", "1"));
    check_popped::<K, O>(rt, "the first slot", builder.pop(), e_acute);
    check_popped::<K, O>(rt, "no slot", builder.pop(), "None");
    check_builder(rt, "no slots", Ok(builder), (&[0], b"", ""));
    let mut builder: MutableByteArray<K, O> = builder_of(rt, (&[1, 2, 3], b"\xFFyz", "10"));
    check_popped::<K, O>(rt, "a null of a byte", builder.pop(), "None");
    check_builder(rt, "its byte too", Ok(builder), (&[1, 2], b"\xFFy", "1"));
    let items: Parts = (&[0, 1, 3, 3], b"c\xC3\xA9", "none");
    let mut values: MutableByteValuesArray<K, O> = values_of(rt, items);
    check_popped::<K, O>(rt, "an empty item", values.pop(), empty);
    check_popped::<K, O>(rt, "the item before it", values.pop(), e_acute);
    check_values(rt, "one item", Ok(values), (&[0, 1], b"c", "none"));
}

#[test]
fn slots_are_popped_with_their_bytes(rt: HostRuntime) {
    let there = "Some([116, 104, 101, 114, 101])";
    let bytes = (there, "Some([195, 169])", "Some([])");
    check_pops::<Binary, i32>(&rt, bytes);
    check_pops::<Binary, i64>(&rt, bytes);
    let texts = (r#"Some("there")"#, r#"Some("é")"#, r#"Some("")"#);
    check_pops::<Utf8, i32>(&rt, texts);
    check_pops::<Utf8, i64>(&rt, texts);
}

/// Offsets and bytes.
const OTHERS: &[(&[usize], &[u8])] = &[(&[0, 0], b""), (&[0, 1], b"x"), (&[1, 2], b"\xFFz")];

/// Extends a builder without nulls by an empty item, one of a byte, and one with another byte before it.
fn check_joins<K: ByteKind, O: Offset>(rt: &(impl Abort + AllocGlobal)) {
    let builder = MutableByteValuesArray::<K, O>::with_capacities(rt.alloc(), 1, 1);
    let mut builder = builder.expect(rt, "memory");
    for (index, (offsets, bytes)) in OTHERS.iter().enumerate() {
        let parts: Parts = (*offsets, *bytes, "none");
        let other = values_of::<K, O>(rt, parts);
        builder.try_extend_from_self(&other).expect(rt, "memory");
        let name = row("the other stays", index);
        check_values(rt, name.as_str(), Ok(other), parts);
    }
    let joined: Parts = (&[0, 0, 1, 2], b"xz", "none");
    check_values(rt, "the items of all, copied", builder.clone(), joined);
    drop(builder);
}

/// Compares room for slots, for offsets and for bytes with the least and the most there may be.
fn check_room<K: ByteKind, O: Offset>(
    rt: &impl Abort,
    case: &str,
    room: [usize; 3],
    least: [usize; 3],
    most: [usize; 3],
) {
    let name = case_of::<K, O>(case);
    for i in 0..3 {
        let expected = room[i].max(least[i]).min(most[i]);
        assert_text::value((i, room[i]), (i, expected)).expect(rt, name.as_str());
    }
}

/// Reserves room in a builder, which takes the slots of `$other`, and gives it back.
macro_rules! check_reserve {
    ($rt:ident, $builder:ty, $other:expr, $room:ident, $check:ident, $slots:expr) => {{
        let builder = <$builder>::with_capacity($rt.alloc(), 40).expect($rt, "memory");
        check_room::<K, O>($rt, "with_capacity", $room(&builder), [40, 40, 0], [usize::MAX; 3]);
        $check($rt, "with_capacity", Ok(builder), NOTHING);
        let mut builder = <$builder>::with_capacities($rt.alloc(), 40, 400).expect($rt, "memory");
        check_room::<K, O>($rt, "with_capacities", $room(&builder), [40, 40, 400], [usize::MAX; 3]);
        let other = $other;
        builder.try_extend_from_self(&other).expect($rt, "try_extend_from_self");
        drop(other);
        builder.reserve(100, 1000).expect($rt, "reserve");
        check_room::<K, O>($rt, "reserve", $room(&builder), [102, 102, 1002], [usize::MAX; 3]);
        builder.shrink_to_fit().expect($rt, "shrink_to_fit");
        check_room::<K, O>($rt, "shrink_to_fit", $room(&builder), [2, 2, 2], [39, 39, 399]);
        $check($rt, "slots stay", Ok(builder), $slots);
    }};
}

fn room<K: ByteKind, O: Offset>(builder: &MutableByteArray<K, O>) -> [usize; 3] {
    let (slots, offsets) = (builder.capacity(), builder.offsets().capacity());
    [slots, offsets, builder.values().capacity()]
}

fn check_slots<K: ByteKind, O: Offset>(rt: &(impl Abort + AllocGlobal)) {
    let slots: Parts = (&[0, 2, 2], b"ab", "10");
    let other = builder_of::<K, O>(rt, slots);
    check_reserve!(rt, MutableByteArray<K, O>, other, room, check_builder, slots);
}

fn room_of_items<K: ByteKind, O: Offset>(values: &MutableByteValuesArray<K, O>) -> [usize; 3] {
    let (items, offsets) = (values.capacity(), values.offsets().capacity());
    [items, offsets, values.values().capacity()]
}

fn check_items<K: ByteKind, O: Offset>(rt: &(impl Abort + AllocGlobal)) {
    let items: Parts = (&[0, 2, 2], b"ab", "none");
    let other = values_of::<K, O>(rt, items);
    check_reserve!(rt, MutableByteValuesArray<K, O>, other, room_of_items, check_values, items);
}

#[test]
fn room_is_reserved_and_given_back(rt: HostRuntime) {
    for_all_kinds!(check_slots, &rt);
    for_all_kinds!(check_items, &rt);
}

/// Makes a builder with nulls of one without, and appends a null to it beside its copy.
fn check_copy<K: ByteKind, O: Offset>(rt: &(impl Abort + AllocGlobal)) {
    let mut builder: MutableByteArray<K, O> = values_of::<K, O>(rt, ITEMS).into();
    builder.reserve(2, 8).expect(rt, "memory");
    let copy = builder.clone();
    builder.push_null().expect(rt, "memory");
    let longer: Parts = (&[0, 2, 2, 7, 7], ITEMS.1, "1110");
    check_builder(rt, "the first grows", Ok(builder), longer);
    check_builder(rt, "its copy does not", copy, ITEMS);
}

/// A name, the parts of a builder, the marks of another, and whether the builders are equal.
const COMPARED: &[(&str, Parts, &str, bool)] = &[
    ("other bytes around and in a null", SLOTS, "101", true),
    ("a null and an item", SLOTS, "111", false),
    ("a null, and no mask", SLOTS, "none", false),
    ("bytes of nulls", (&[0, 0, 0, 0], b"", "000"), "000", true),
];

/// Compares builders with others that have another byte before the slots, and one in the second.
fn check_equality<K: ByteKind, O: Offset>(rt: &(impl Abort + AllocGlobal)) {
    for (index, (case, parts, marks, is_equal)) in COMPARED.iter().enumerate() {
        let first: MutableByteArray<K, O> = builder_of(rt, *parts);
        let other: Parts = (&[1, 3, 4, 9], b"\xFF\xC3\xA9xthere", *marks);
        let second: MutableByteArray<K, O> = builder_of(rt, other);
        let came = (first == second, first != second);
        drop(second);
        drop(first);
        let name = case_of::<K, O>(row(*case, index).as_str());
        assert_text::value(came, (*is_equal, !*is_equal)).expect(rt, name.as_str());
    }
}

/// Only the items of another builder are appended, a copy shares nothing, and builders of the same slots are equal.
#[test]
fn builders_are_joined_copied_and_compared(rt: HostRuntime) {
    for_all_kinds!(check_joins, &rt);
    for_all_kinds!(check_copy, &rt);
    for_all_kinds!(check_equality, &rt);
}
