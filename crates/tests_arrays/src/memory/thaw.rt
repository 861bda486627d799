//! Frozen parts of arrays that become growing ones together, unless one of them is shared.
use arrow_memory::bitmap::Bitmap;
use arrow_memory::buffer::Buffer;
use arrow_memory::thaw::{into_mut_bits, into_mut_bytes, into_mut_values};
use arrow_types::offset::Offset;
use either::{Left, Right};
use std::process::Abort;
use tests_support::{Text, assert_text, buffer_of, frozen_offsets};

/// Creates three bits, of which the second is clear.
fn bits(rt: &(impl Abort + AllocGlobal)) -> Bitmap {
    Bitmap::from_slice(rt.alloc(), [true, false, true].as_slice()).expect(rt, "memory")
}

/// Creates the first two of three bits.
fn cut(rt: &(impl Abort + AllocGlobal)) -> Bitmap {
    let mut bitmap = bits(rt);
    assert!(rt; 2 <= bitmap.len());
    bitmap.slice(0, 2);
    bitmap
}

/// Returns the name of the side that came.
fn side(is_growing: bool) -> &'static str {
    if is_growing { "growing" } else { "frozen" }
}

/// Thaws two values with a mask, and compares which side comes with this one.
fn check_values(rt: &(impl Abort + AllocGlobal), case: &str, mask: Option<Bitmap>, expected: &str) {
    let values = buffer_of::<i64>(rt.alloc(), &[7, 0]).expect(rt, "memory");
    let thawed = into_mut_values(values, mask);
    let is_growing = thawed.is_right();
    drop(thawed);
    assert_text::value(side(is_growing), expected).expect(rt, case);
}

/// Thaws bits with a mask, and compares which side comes with this one.
fn check_bits(rt: &impl Abort, case: &str, bits: Bitmap, mask: Option<Bitmap>, expected: &str) {
    let thawed = into_mut_bits(bits, mask);
    let is_growing = thawed.is_right();
    drop(thawed);
    assert_text::value(side(is_growing), expected).expect(rt, case);
}

#[test]
fn values_and_bits_thaw_unless_they_or_their_mask_are_shared(rt: HostRuntime) {
    let mask = cut(&rt);
    let other = mask.clone().expect(&rt, "memory");
    check_values(&rt, "a shared mask", Some(mask), "frozen");
    check_values(&rt, "a mask alone", Some(other), "growing");
    check_values(&rt, "no mask", None, "growing");
    let first = bits(&rt);
    let other = first.clone().expect(&rt, "memory");
    check_bits(&rt, "shared bits", first, Some(bits(&rt)), "frozen");
    check_bits(&rt, "bits alone", other, Some(cut(&rt)), "growing");
    check_bits(&rt, "no mask", bits(&rt), None, "growing");
}

/// Creates a buffer of two bytes.
fn two_bytes(rt: &(impl Abort + AllocGlobal)) -> Buffer<u8> {
    buffer_of(rt.alloc(), &[0x61, 0xff]).expect(rt, "memory")
}

/// Creates the first of two bytes.
fn cut_byte(rt: &(impl Abort + AllocGlobal)) -> Buffer<u8> {
    let mut bytes = two_bytes(rt);
    assert!(rt; 1 <= bytes.len());
    bytes.slice(0, 1);
    bytes
}

/// Thaws two slots, the second of one byte, and compares the growing bytes, or that the slots stay frozen.
fn check_slots(
    rt: &(impl Abort + AllocGlobal),
    case: &str,
    bytes: Buffer<u8>,
    mask: Option<Bitmap>,
    expected: &str,
) {
    let offsets = frozen_offsets::<i32>(rt.alloc(), [0, 0, 1].as_slice());
    let offsets = offsets.expect(rt, "offsets");
    assert!(rt; offsets.last().to_usize() <= bytes.len());
    let came = match into_mut_bytes::<i32>(offsets, bytes, mask) {
        Left((offsets, bytes, mask)) => {
            drop(mask);
            drop(bytes);
            drop(offsets);
            Text::of("frozen")
        }
        Right((offsets, bytes, mask)) => {
            drop(mask);
            drop(offsets);
            let text = Text::of(format_args!("{:?}", bytes.as_slice()));
            drop(bytes);
            text
        }
    };
    assert_text::text(came, expected).expect(rt, case);
}

/// Bytes that show only the beginning of their vector are not thawed.
#[test]
fn slots_thaw_to_the_bytes_before_their_last_offset(rt: HostRuntime) {
    let first = two_bytes(&rt);
    let other = first.clone().expect(&rt, "memory");
    check_slots(&rt, "shared bytes", first, Some(cut(&rt)), "frozen");
    check_slots(&rt, "bytes alone", other, Some(cut(&rt)), "[97]");
    let bare = buffer_of(rt.alloc(), &[0x61]).expect(&rt, "memory");
    check_slots(&rt, "no mask", bare, None, "[97]");
    check_slots(
        &rt,
        "over the beginning, a mask",
        cut_byte(&rt),
        Some(cut(&rt)),
        "frozen",
    );
    check_slots(
        &rt,
        "over the beginning, no mask",
        cut_byte(&rt),
        None,
        "frozen",
    );
}
