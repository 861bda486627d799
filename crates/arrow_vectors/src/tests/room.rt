//! Capacity: what fits into reserved room is appended without another growth, and room that is given back is gone.
use super::*;

#[test]
fn three_values_fit_in_room_for_three(rt: HostRuntime) {
    let builder = MutablePrimitiveArray::<i64>::with_capacity(rt.alloc(), 3);
    let mut builder = builder.expect(&rt, "memory");
    for case in ["with_capacity", "reserve"] {
        let room = builder.capacity();
        let left = room.saturating_sub(builder.len());
        for value in 0..3 {
            builder.push(Some(value)).expect(&rt, "memory");
        }
        let came = (left.min(3), builder.capacity());
        assert_text::value(came, (3, room)).expect(&rt, case);
        builder.reserve(3).expect(&rt, "memory");
    }
    drop(builder);
}

/// Compares the capacities of builders of bytes and of text before and after three items of two bytes, for which each
/// call reserves room.
fn check_reserved<O: Offset>(rt: &(impl Abort + AllocGlobal)) {
    macro_rules! check_three_items {
        ($case:expr, $builder:ident, $item:expr) => {
            let name = Text::of(format_args!("{} ({})", $case, offset_name::<O>()));
            let room = ($builder.offsets().capacity(), $builder.values().capacity());
            for _ in 0..3 {
                $builder.push(Some($item)).expect(rt, "memory");
            }
            let came = ($builder.offsets().capacity(), $builder.values().capacity());
            assert_text::value(came, room).expect(rt, name.as_str());
        };
    }
    let mut bytes = MutableByteArray::<Binary, O>::new(rt.alloc()).expect(rt, "memory");
    bytes.reserve(3, 6).expect(rt, "memory");
    check_three_items!("reserve of bytes", bytes, b"12");
    bytes.reserve(3, 6).expect(rt, "memory");
    check_three_items!("another reserve of bytes", bytes, b"12");
    drop(bytes);
    let texts = MutableByteArray::<Utf8, O>::with_capacities(rt.alloc(), 3, 6);
    let mut texts = texts.expect(rt, "memory");
    check_three_items!("with_capacities of texts", texts, "é");
    texts.reserve(3, 6).expect(rt, "memory");
    check_three_items!("reserve of texts", texts, "é");
    drop(texts);
}

#[test]
fn six_bytes_fit_in_room_for_six(rt: HostRuntime) {
    for_each_offset!(check_reserved, &rt);
}

/// Compares capacities with the thousand that were reserved, and, once room was given back, with less.
fn check_capacities(rt: &impl Abort, case: &str, is_shrunk: bool, capacities: [usize; 3]) {
    let [first, second, third] = capacities;
    if is_shrunk {
        let came = [first.max(999), second.max(999), third.max(999)];
        assert_text::value(came, [999; 3]).expect(rt, case);
    } else {
        let came = [first.min(1000), second.min(1000), third.min(1000)];
        assert_text::value(came, [1000; 3]).expect(rt, case);
    }
}

/// Returns the capacity of a mask, which has to be there, in marks.
fn mask_capacity(rt: &impl Abort, mask: Option<MutableBitmap>) -> usize {
    let bytes = mask.expect(rt, "a mask").into_vec();
    let capacity = bytes.capacity().saturating_mul(8);
    drop(bytes);
    capacity
}

/// Returns the capacity of a bitmap that is not shared, in marks.
fn bitmap_capacity(rt: &impl Abort, bitmap: Bitmap) -> usize {
    mask_capacity(rt, bitmap.into_mut().right())
}

/// Lets a builder of a null reserve room for a thousand slots, and give it back or not, and compares its capacities.
macro_rules! check_thousand {
    ($rt:ident, $case:expr; $builder:ident = $made:expr; reserve($($room:expr),+); $capacities:block) => {
        for is_shrunk in [false, true] {
            let mut $builder = $made;
            $builder.push_null().expect($rt, "memory");
            $builder.reserve($($room),+).expect($rt, "memory");
            if is_shrunk {
                $builder.shrink_to_fit().expect($rt, "memory");
            }
            check_capacities($rt, $case, is_shrunk, $capacities);
        }
    };
}

#[test]
fn room_for_numbers_and_booleans_comes_and_goes(rt: HostRuntime) {
    let rt = &rt;
    check_thousand! { rt, "numbers"; builder = MutablePrimitiveArray::<i64>::new(rt.alloc()); reserve(1000); {
        let capacity = builder.capacity();
        let (_, values, mask) = builder.into_inner();
        let stored = values.capacity();
        drop(values);
        [capacity, stored, mask_capacity(rt, mask)]
    }}
    check_thousand! { rt, "booleans"; builder = MutableBooleanArray::new(rt.alloc()); reserve(1000); {
        let (_, values, mask) = builder.freeze().expect(rt, "memory").into_inner();
        let marks = bitmap_capacity(rt, mask.expect(rt, "a mask"));
        [bitmap_capacity(rt, values), marks, marks]
    }}
    let builder = MutableBooleanArray::with_capacity(rt.alloc(), 1000).expect(rt, "memory");
    let (_, values, mask) = builder.freeze().expect(rt, "memory").into_inner();
    drop(mask);
    let capacity = bitmap_capacity(rt, values);
    check_capacities(rt, "with_capacity of booleans", false, [capacity; 3]);
}

/// Compares the capacities of builders with and without nulls, after `reserve` and after `shrink_to_fit`.
fn check_items<K: ByteKind, O: Offset>(rt: &(impl Abort + AllocGlobal)) {
    let (slots, items) = (
        case_of::<K, O>("with nulls"),
        case_of::<K, O>("without nulls"),
    );
    check_thousand! { rt, slots.as_str(); builder = own_builder::<K, O>(rt, (&[0], b"", "none")); reserve(1000, 1000); {
        let capacity = builder.capacity();
        let (_, offsets, bytes, mask) = builder.into_data();
        let stored = bytes.capacity();
        drop(bytes);
        drop(offsets);
        [capacity, stored, mask_capacity(rt, mask)]
    }}
    check_thousand! { rt, items.as_str();
        builder = MutableByteValuesArray::<K, O>::new(rt.alloc()).expect(rt, "memory"); reserve(1000, 1000); {
        let capacities = [builder.capacity(), builder.offsets().capacity(), builder.values().capacity()];
        drop(builder);
        capacities
    }}
}

#[test]
fn room_for_bytes_and_text_comes_and_goes(rt: HostRuntime) {
    for_each_kind!(check_items, &rt);
}
