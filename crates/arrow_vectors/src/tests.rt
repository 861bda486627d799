//! Tables of cases, in a module for each subject. Stored booleans and marks are texts of `1` and `0`, and the marks are
//! `none` without a mask. A comparison drops what it compares.

/// Calls a function of a type of offsets for both widths, and for one that ends at 100.
macro_rules! for_each_offset {
    ($check:ident $(::<$($kind:ty),+>)?, $($argument:expr),+) => {{
        $check::<i32 $($(, $kind)+)?>($($argument),+);
        $check::<i64 $($(, $kind)+)?>($($argument),+);
        $check::<Tiny $($(, $kind)+)?>($($argument),+);
    }};
}

/// Calls a function of a kind and a width of offsets for both kinds at both widths.
macro_rules! for_each_kind {
    ($check:ident, $($argument:expr),+) => {{
        $check::<Binary, i32>($($argument),+);
        $check::<Binary, i64>($($argument),+);
        $check::<Utf8, i32>($($argument),+);
        $check::<Utf8, i64>($($argument),+);
    }};
}

mod bytes;
mod columns;
mod iterators;
mod joins;
mod keys;
mod masks;
mod offsets;
mod overflow;
mod parts;
mod room;
mod text;

use arrow_boolean::{BooleanArray, MutableBooleanArray};
use arrow_byte_array::{ByteArray, MutableByteArray, MutableByteValuesArray};
use arrow_bytes::{Binary, ByteKind, Utf8};
use arrow_memory::bitmap::{Bitmap, MutableBitmap};
use arrow_memory::buffer::Buffer;
use arrow_memory::offset::Offsets;
use arrow_primitive::{MutablePrimitiveArray, PrimitiveArray};
use arrow_types::data_type::DataType;
use arrow_types::error::Error;
use arrow_types::native_type::NativeType;
use arrow_types::offset::Offset;
use std::fmt::Debug;
use std::process::Abort;
use tests_support::{
    Text, Tiny, assert_text, buffer_of, frozen_mask, frozen_offsets, growing_mask, offset_name,
    offsets_of, row, row_of, tells,
};

/// Two characters of two bytes, and one of four.
const ACCENTS: &[u8] = b"\xC3\xA9\xC3\xA8";

const FOUR: &[u8] = b"\xF0\x9F\x98\x80";

const NO_TEXT: &str = "every text between two offsets must be UTF-8";

/// Offsets, bytes, and a mask as a text of `1` and `0`, or `none`.
type Parts = (&'static [usize], &'static [u8], &'static str);

/// Slots of bytes and of text, and the parts that store them, with their mask and without it.
const BYTE_SLOTS: &[Option<&[u8]>] = &[Some(b"hi"), None, Some(b"there")];

const TEXT_SLOTS: &[Option<&str>] = &[Some("hi"), None, Some("there")];

const SLOTS: Parts = (&[0, 2, 2, 7], b"hithere", "101");

const ITEMS: Parts = (&[0, 2, 2, 7], b"hithere", "none");

/// Names a case, and the kind and the type of offsets with which it is tried.
fn case_of<K: ByteKind, O: Offset>(case: &str) -> Text {
    let data_type = K::default_type(false);
    let name = Text::of(format_args!("{case} ({data_type:?}, {})", offset_name::<O>()));
    drop(data_type);
    name
}

/// Compares what a value prints with a text.
fn check_text<T: Debug + Drop>(rt: &impl Abort, case: &str, value: T, expected: &str) {
    let came = Text::of(format_args!("{value:?}"));
    drop(value);
    assert_text::text(came, expected).expect(rt, case);
}

/// A placeholder for the error of a wrong type, which names the kind of array or builder.
const TYPE: &str = "type";

/// Compares an answer with an expected one, for which the error of a wrong type may stand.
fn check_answer(rt: &impl Abort, case: &str, came: &str, answer: &str, of_type: &str) {
    let expected = if answer == TYPE { of_type } else { answer };
    assert_text::value(came, expected).expect(rt, case);
}

/// Compares offsets and bytes.
fn check_bytes<O: Offset>(
    rt: &(impl Abort + AllocGlobal),
    case: &str,
    offsets: &[O],
    bytes: &[u8],
    expected: (&[usize], &[u8]),
) {
    let numbers = offsets.iter().filter_map(|offset| offset.try_to_usize());
    let numbers: Vec<usize> = numbers.collect(rt.alloc()).expect(rt, "memory");
    assert_text::value((numbers.as_slice(), bytes), expected).expect(rt, case);
    drop(numbers);
}

/// Compares the parts of an array.
fn check_array<K: ByteKind, O: Offset>(
    rt: &(impl Abort + AllocGlobal),
    case: &str,
    answer: Result<ByteArray<K, O>, Error>,
    (offsets, bytes, mask): Parts,
) {
    let name = case_of::<K, O>(case);
    let case = name.as_str();
    let array = answer.expect(rt, case);
    let (ends, stored) = (
        array.offsets().buffer().as_slice(),
        array.values().as_slice(),
    );
    check_bytes(rt, case, ends, stored, (offsets, bytes));
    assert_text::mask(array.validity(), mask).expect(rt, case);
    drop(array);
}

/// Compares the parts of a builder.
fn check_builder<K: ByteKind, O: Offset>(
    rt: &(impl Abort + AllocGlobal),
    case: &str,
    answer: Result<MutableByteArray<K, O>, Error>,
    (offsets, bytes, mask): Parts,
) {
    let name = case_of::<K, O>(case);
    let case = name.as_str();
    let builder = answer.expect(rt, case);
    let (ends, stored) = (builder.offsets().as_slice(), builder.values().as_slice());
    check_bytes(rt, case, ends, stored, (offsets, bytes));
    assert_text::growing_mask(builder.validity(), mask).expect(rt, case);
    drop(builder);
}

/// Compares the parts of a builder without nulls, except for the mask.
fn check_values<K: ByteKind, O: Offset>(
    rt: &(impl Abort + AllocGlobal),
    case: &str,
    answer: Result<MutableByteValuesArray<K, O>, Error>,
    (offsets, bytes, _): Parts,
) {
    let name = case_of::<K, O>(case);
    let case = name.as_str();
    let builder = answer.expect(rt, case);
    let (ends, stored) = (builder.offsets().as_slice(), builder.values().as_slice());
    check_bytes(rt, case, ends, stored, (offsets, bytes));
    drop(builder);
}

/// Creates an array of parts.
fn array_of<K: ByteKind, O: Offset>(
    rt: &(impl Abort + AllocGlobal),
    data_type: DataType,
    (offsets, bytes, mask): Parts,
) -> Result<ByteArray<K, O>, Error> {
    let offsets = frozen_offsets(rt.alloc(), offsets).expect(rt, "offsets");
    let bytes = buffer_of(rt.alloc(), bytes).expect(rt, "memory");
    let mask = frozen_mask(rt.alloc(), mask).expect(rt, "memory");
    ByteArray::try_new(data_type, offsets, bytes, mask)
}

/// Creates a builder of parts.
fn builder_of<K: ByteKind, O: Offset>(
    rt: &(impl Abort + AllocGlobal),
    data_type: DataType,
    (offsets, bytes, mask): Parts,
) -> Result<MutableByteArray<K, O>, Error> {
    let offsets = offsets_of(rt.alloc(), offsets).expect(rt, "offsets");
    let bytes = bytes.to_vec(rt.alloc()).expect(rt, "memory");
    let mask = growing_mask(rt.alloc(), mask).expect(rt, "memory");
    MutableByteArray::try_new(data_type, offsets, bytes, mask)
}

/// Creates a builder without nulls of parts, except for the mask.
fn values_of<K: ByteKind, O: Offset>(
    rt: &(impl Abort + AllocGlobal),
    data_type: DataType,
    (offsets, bytes, _): Parts,
) -> Result<MutableByteValuesArray<K, O>, Error> {
    let offsets = offsets_of(rt.alloc(), offsets).expect(rt, "offsets");
    let bytes = bytes.to_vec(rt.alloc()).expect(rt, "memory");
    MutableByteValuesArray::try_new(data_type, offsets, bytes)
}

/// Creates an array of parts that fit, of the default data type.
fn own_array<K: ByteKind, O: Offset>(
    rt: &(impl Abort + AllocGlobal),
    parts: Parts,
) -> ByteArray<K, O> {
    array_of(rt, K::default_type(O::IS_LARGE), parts).expect(rt, "parts that fit")
}

/// Creates a builder of parts that fit, of the default data type.
fn own_builder<K: ByteKind, O: Offset>(
    rt: &(impl Abort + AllocGlobal),
    parts: Parts,
) -> MutableByteArray<K, O> {
    builder_of(rt, K::default_type(O::IS_LARGE), parts).expect(rt, "parts that fit")
}

/// Thaws an array that is not shared.
fn thawed<K: ByteKind, O: Offset>(
    rt: &impl Abort,
    array: ByteArray<K, O>,
) -> MutableByteArray<K, O> {
    let builder = array.into_mut().right();
    builder.expect(rt, case_of::<K, O>("an array alone thaws").as_str())
}

/// Compares the stored values and the mask of an array of numbers.
fn check_numbers<T: NativeType + Debug>(
    rt: &impl Abort,
    case: &str,
    answer: Result<PrimitiveArray<T>, Error>,
    values: &[T],
    mask: &str,
) {
    let name = Text::of(format_args!("{case} ({:?})", T::PRIMITIVE));
    let array = answer.expect(rt, name.as_str());
    assert_text::value(array.values().as_slice(), values).expect(rt, name.as_str());
    assert_text::mask(array.validity(), mask).expect(rt, name.as_str());
    drop(array);
}

/// Compares the stored values and the mask of a builder of numbers.
fn check_growing<T: NativeType + Debug>(
    rt: &impl Abort,
    case: &str,
    answer: Result<MutablePrimitiveArray<T>, Error>,
    values: &[T],
    mask: &str,
) {
    let name = Text::of(format_args!("{case} ({:?})", T::PRIMITIVE));
    let builder = answer.expect(rt, name.as_str());
    assert_text::value(builder.values().as_slice(), values).expect(rt, name.as_str());
    assert_text::growing_mask(builder.validity(), mask).expect(rt, name.as_str());
    drop(builder);
}

/// Compares the stored values, the mask and the number of nulls of an array of booleans.
fn check_booleans(
    rt: &impl Abort,
    case: &str,
    answer: Result<BooleanArray, Error>,
    values: &str,
    mask: &str,
) {
    let array = answer.expect(rt, case);
    assert_text::marks(array.values_iter(), values).expect(rt, case);
    assert_text::mask(array.validity(), mask).expect(rt, case);
    let nulls = mask.as_bytes().iter().filter(|mark| **mark == b'0').count();
    assert_text::value(array.null_count(), nulls).expect(rt, case);
    drop(array);
}
