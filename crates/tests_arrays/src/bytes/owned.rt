//! Owned texts and bytes as items. Their owners keep them.
use super::*;

#[test]
fn texts_are_taken_from_their_owners(rt: HostRuntime) {
    let mut texts = Vec::new(rt.alloc());
    for text in TEXTS.1 {
        let owned = String::from_str(rt.alloc(), *text).expect(&rt, "memory");
        texts.push(owned).expect(&rt, "memory");
    }
    let array = ByteArray::<Utf8, i32>::from_iter_values(rt.alloc(), texts.iter());
    check_array(&rt, "from_iter_values", array, ITEMS);
    let slots = texts
        .iter()
        .map(|text| if text.is_empty() { None } else { Some(text) });
    let array = ByteArray::<Utf8, i64>::from_iter(rt.alloc(), slots);
    check_array(&rt, "from_iter", array, SLOTS);
    let values = MutableByteValuesArray::<Utf8, i32>::from_iter(rt.alloc(), texts.iter());
    check_values(&rt, "from_iter of values", values, ITEMS);
    assert!(rt; texts.len() == 3);
    let few = [&texts[0], &texts[2]];
    let array = ByteArray::<Utf8, i64>::from_slice(rt.alloc(), few.as_slice());
    let expected: Parts = (&[0, 2, 7], b"\xC3\xA9there", "none");
    check_array(&rt, "from_slice", array, expected);
    drop(texts);
}

#[test]
fn bytes_are_taken_from_their_owners(rt: HostRuntime) {
    let mut items = Vec::new(rt.alloc());
    for bytes in BYTES.1 {
        let owned = Vec::from_slice(rt.alloc(), *bytes).expect(&rt, "memory");
        items.push(owned).expect(&rt, "memory");
    }
    let array = ByteArray::<Binary, i32>::from_iter_values(rt.alloc(), items.iter());
    check_array(&rt, "from_iter_values", array, ITEMS);
    let mut builder = MutableByteArray::<Binary, i64>::new(rt.alloc()).expect(&rt, "memory");
    builder.extend_values(items.iter()).expect(&rt, "memory");
    check_builder(&rt, "extend_values", Ok(builder), ITEMS);
    drop(items);
}
