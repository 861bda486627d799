//! Growth past the greatest offset, which is an overflow whether memory would be refused or not, and asks for none.
use arrow_byte_array::{ByteArray, MutableByteArray};
use arrow_bytes::{Binary, ByteKind, Utf8};
use arrow_memory::offset::Offsets;
use arrow_types::error::Error;
use arrow_types::offset::Offset;
use std::process::Abort;
use tests_support::{Text, Tiny, assert_text};

/// Checks that an answer is an overflow.
fn check_overflow(rt: &impl Abort, case: &str, answer: Result<(), Error>) {
    assert_text::text(Text::of(format_args!("{answer:?}")), "Err(Overflow)").expect(rt, case);
}

#[test]
fn offsets_past_the_greatest_overflow(rt: HostRuntime) {
    let mut other = Offsets::<Tiny>::with_capacity(rt.alloc(), 1).expect(&rt, "refused");
    other.try_push_usize(41).expect(&rt, "room for a slot");
    let mut offsets = Offsets::<Tiny>::with_capacity(rt.alloc(), 1).expect(&rt, "refused");
    offsets.try_push_usize(60).expect(&rt, "room for a slot");
    let before = (2, Some(60), offsets.capacity());
    check_overflow(&rt, "try_push_usize", offsets.try_push_usize(41));
    let answer = offsets.try_extend_from_self(&other);
    drop(other);
    check_overflow(&rt, "try_extend_from_self", answer);
    let last = offsets.last().try_to_usize();
    let left = (offsets.as_slice().len(), last, offsets.capacity());
    drop(offsets);
    assert_text::value(left, before).expect(&rt, "offsets and capacity after overflows");
}

/// Writes the room for slots, for their offsets and for bytes, and the bytes.
fn room_text<K: ByteKind>(builder: &MutableByteArray<K, Tiny>) -> Text {
    let (slots, bytes) = (builder.capacity(), builder.values());
    let offsets = builder.offsets().capacity();
    Text::of(format_args!("{slots} {offsets} {} {}", bytes.capacity(), bytes.len()))
}

/// Checks that forty-one bytes overflow behind sixty. A macro, since the calls are proved of each kind alone.
macro_rules! check_items {
    ($rt:expr, $kind:ident, $sixty:expr, $forty_one:expr) => {{
        let (alloc, items) = ($rt.alloc(), [$forty_one]);
        let builder = MutableByteArray::<$kind, Tiny>::with_capacities(alloc, 1, 60);
        let mut builder = builder.expect($rt, "refused");
        let other = MutableByteArray::<$kind, Tiny>::from_iter_values(alloc, items.iter().copied());
        let other = other.expect($rt, "refused");
        let array = ByteArray::<$kind, Tiny>::from_slice(alloc, items.as_slice()).expect($rt, "refused");
        builder.push(Some($sixty)).expect($rt, "room for an item");
        let before = room_text(&builder);
        check_overflow($rt, "push", builder.push(Some($forty_one)));
        check_overflow($rt, "try_extend_from_self", builder.try_extend_from_self(&other));
        drop(other);
        assert!($rt; array.len() == 1);
        check_overflow($rt, "extend_from_array", builder.extend_from_array(&array, 0, 1));
        drop(array);
        let left = room_text(&builder);
        drop(builder);
        assert_text::text(left, before.as_str()).expect($rt, "room and bytes after overflows");
    }};
}

/// An item of sixty bytes.
pub(crate) const SIXTY: &str = "€€€€€€€€€€€€€€€€€€€€";

/// An item of forty-one bytes.
pub(crate) const FORTY_ONE: &str = "ééééééééééééééééééééa";

#[test]
fn bytes_past_the_greatest_offset_overflow(rt: HostRuntime) {
    check_items!(&rt, Binary, SIXTY.as_bytes(), FORTY_ONE.as_bytes());
}

#[test]
fn text_past_the_greatest_offset_overflows(rt: HostRuntime) {
    check_items!(&rt, Utf8, SIXTY, FORTY_ONE);
}
