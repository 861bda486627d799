//! Iterators over a range of slots.
use super::*;

/// A name, where a slice of the array and a range of that slice begin, and the length of the range.
const RANGES: &[(&str, usize, usize, usize)] = &[
    ("all", 0, 0, 5),
    ("in the middle", 0, 1, 3),
    ("at the end", 0, 2, 3),
    ("none", 0, 0, 0),
    ("none at the end", 0, 5, 0),
    ("all of a slice", 1, 0, 4),
    ("in a slice", 1, 2, 1),
];

/// Compares ranges of an array of these slots from both ends.
fn check_ranges<T: NativeType + Debug>(rt: &(impl Abort + AllocGlobal), slots: [Option<T>; 5]) {
    for (index, (case, start, offset, len)) in RANGES.iter().enumerate() {
        let name = case_of::<T>(row(*case, index).as_str());
        let case = name.as_str();
        let (start, offset, len) = (*start, *offset, *len);
        let array = PrimitiveArray::<T>::from(rt.alloc(), slots.as_slice());
        let mut array = array.expect(rt, "memory");
        assert!(rt; start <= 5 && array.len() == 5);
        array.slice(start, 5 - start);
        assert!(rt; offset <= array.len() && len <= array.len() - offset);
        let (mut front, mut back) = (array.iter_range(offset, len), array.iter_range(offset, len));
        assert_text::value(front.size_hint(), (len, Some(len))).expect(rt, case);
        for i in 0..len {
            let came = (front.next(), back.next_back());
            let (first, last) = (start + offset + i, start + offset + len - 1 - i);
            assert!(rt; first < 5 && last < 5);
            let expected = (Some(slots[first].as_ref()), Some(slots[last].as_ref()));
            assert_text::value((i, came), (i, expected)).expect(rt, case);
        }
        assert_text::value((front.next(), back.next_back()), (None, None)).expect(rt, case);
        drop(array);
    }
}

#[test]
fn ranges_are_read_from_both_ends(rt: HostRuntime) {
    check_ranges::<i64>(&rt, [Some(1), None, Some(3), Some(4), None]);
    let (first, last) = (Some(i256(0, 1)), Some(i256(-1, 2)));
    check_ranges(&rt, [None, first, last, None, first]);
    check_ranges::<i64>(&rt, [Some(5), Some(6), Some(7), Some(8), Some(9)]);
}
