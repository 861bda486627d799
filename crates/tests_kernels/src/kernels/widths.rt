//! Arrays of bytes and of text over offsets of the other width.
use crate::arrays::{Items, check_stored_items, row, stored_items};
use arrow_bytes::{Binary, Utf8};
use arrow_kernels::{narrow_binary, narrow_utf8, widen_binary, widen_utf8};
use arrow_types::data_type::DataType;
use arrow_utf8::Utf8Array;

const LETTERS: Items = (&[0, 1, 2], b"ab", "none");

/// A name, an array, the offset and length of a slice of it, and the parts of what is made of it.
#[rattlefmt::skip]
const SLICES: &[(&str, Items, usize, usize, Items)] = &[
    ("bytes around", (&[2, 3, 3, 5], b"yyabbz", "101"), 1, 2, (&[3, 3, 5], b"yyabbz", "01")),
    ("no bytes, no text", (&[1], b"ab", "none"), 0, 0, (&[1], b"ab", "none")),
    ("texts", (&[0, 2, 2, 7], b"hithere", "101"), 0, 3, (&[0, 2, 2, 7], b"hithere", "101")),
];

#[test]
fn slots_stay_at_either_width(rt: HostRuntime) {
    let alloc = rt.alloc();
    for (index, (case, array, offset, len, expected)) in SLICES.iter().enumerate() {
        let row = row("slots stay at either width", "Binary", index, *case);
        let row = row.as_str();
        let array = stored_items::<Binary, i32>(&rt, *array);
        assert!(rt; *offset <= array.len() && *len <= array.len() - *offset);
        let array = array.sliced(*offset, *len);
        let wide = widen_binary(alloc, &array).expect(&rt, row);
        drop(array);
        let narrow = narrow_binary(alloc, &wide);
        check_stored_items(&rt, row, Ok(wide), Ok(*expected));
        check_stored_items(&rt, row, narrow, Ok(*expected));
    }
    for (index, (case, array, offset, len, expected)) in SLICES.iter().enumerate() {
        let row = row("slots stay at either width", "Utf8", index, *case);
        let row = row.as_str();
        let array = stored_items::<Utf8, i32>(&rt, *array);
        assert!(rt; *offset <= array.len() && *len <= array.len() - *offset);
        let array = array.sliced(*offset, *len);
        let wide = widen_utf8(alloc, &array).expect(&rt, row);
        drop(array);
        let narrow = narrow_utf8(alloc, &wide);
        check_stored_items(&rt, row, Ok(wide), Ok(*expected));
        check_stored_items(&rt, row, narrow, Ok(*expected));
    }
    let row = "slots stay at either width: the type becomes the default one";
    let (data_type, offsets, values, mask) = stored_items::<Utf8, i32>(&rt, LETTERS).into_inner();
    let name = String::from_str(alloc, "name").expect(&rt, "memory");
    let inner = Box::new(alloc, data_type).expect(&rt, "memory");
    let data_type = DataType::Extension(name, inner, None);
    let array = Utf8Array::try_new(data_type, offsets, values, mask).expect(&rt, "parts that fit");
    let wide = widen_utf8(alloc, &array).expect(&rt, row);
    drop(array);
    let narrow = narrow_utf8(alloc, &wide);
    check_stored_items(&rt, row, Ok(wide), Ok(LETTERS));
    check_stored_items(&rt, row, narrow, Ok(LETTERS));
}
