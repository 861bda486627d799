//! Reads of arrays and builders by index.
use super::*;

/// A name, slots, and the number of nulls.
const SLOTS: &[(&str, &[Option<bool>], usize)] = &[
    ("nulls", &[Some(true), None, Some(false), None, None], 3),
    ("values", &[Some(false), Some(true)], 0),
    ("none", &[], 0),
];

#[test]
fn slots_are_read_by_index(rt: HostRuntime) {
    for (index, (case, slots, nulls)) in SLOTS.iter().enumerate() {
        let name = row(*case, index);
        let case = name.as_str();
        let array = BooleanArray::from(rt.alloc(), *slots).expect(&rt, "memory");
        let builder = MutableBooleanArray::from(rt.alloc(), *slots).expect(&rt, "memory");
        assert!(rt; array.len() == slots.len() && builder.len() == slots.len());
        for i in 0..slots.len() {
            let slot = slots[i];
            let of_array = (
                array.get(i),
                array.is_null(i),
                array.value(i),
                array.is_valid(i),
            );
            let of_builder = (builder.get(i), builder.is_null(i));
            let expected = (slot, slot.is_none(), slot == Some(true), slot.is_some());
            assert_text::value((i, of_array), (i, expected)).expect(&rt, case);
            assert_text::value((i, of_builder), (i, (slot, slot.is_none()))).expect(&rt, case);
        }
        let counts = [array.null_count(), builder.null_count()];
        let are_empty = [array.is_empty(), builder.is_empty()];
        drop(builder);
        drop(array);
        let expected = ([*nulls; 2], [slots.is_empty(); 2]);
        assert_text::value((counts, are_empty), expected).expect(&rt, case);
    }
}
