//! Arrays of slots, or of stored values and marks, and comparisons of answers with them. Marks are texts of `1` and `0`,
//! and `none` without a mask. A failure names the test, the type, and the index and the case of the row.
ghost use Rattle.std.specs.Iterator.{IsFinite};
ghost use Rattle.std.specs.Prelude.{None};

use arrow_binary::BinaryArray;
use arrow_boolean::BooleanArray;
use arrow_byte_array::ByteArray;
use arrow_bytes::{ByteItem, ByteKind};
use arrow_memory::bitmap::Bitmap;
use arrow_primitive::PrimitiveArray;
use arrow_types::data_type::DataType;
use arrow_types::error::Error;
use arrow_types::native_type::NativeType;
use arrow_types::offset::Offset;
use arrow_utf8::Utf8Array;
use either::Either::{self, Left, Right};
use std::fmt::Debug;
use std::process::Abort;
use tests_support::{Text, assert_text, buffer_of, frozen_mask, frozen_offsets};

pub(crate) const TOO_GREAT: Error = Error::OutOfSpec(
    "a dictionary key must be below the length of the dictionary values",
);

pub(crate) const NEGATIVE: Error = Error::OutOfSpec("the dictionary key must fit in a usize");

/// The texts of slots, as `[1 _ 2]`, and of a mask.
pub(crate) type Slots = (&'static str, &'static str);

/// Stored booleans and marks.
pub(crate) type Booleans = (&'static str, &'static str);

/// Offsets, bytes and marks.
pub(crate) type Items = (&'static [usize], &'static [u8], &'static str);

/// Returns what a failure in a row of a table is called.
pub(crate) fn row(test: &str, kind: &str, index: usize, case: &str) -> Text {
    Text::of(format_args!("{test}: {kind}, row {index}, {case}"))
}

/// Creates an array of slots of numbers.
pub(crate) fn numbers<T: NativeType>(
    rt: &(impl Abort + AllocGlobal),
    slots: &[Option<T>],
) -> PrimitiveArray<T> {
    PrimitiveArray::from(rt.alloc(), slots).expect(rt, "memory")
}

/// Creates an array of stored numbers and marks.
pub(crate) fn stored_numbers<T: NativeType>(
    rt: &(impl Abort + AllocGlobal),
    data_type: DataType,
    values: &[T],
    mask: &str,
) -> PrimitiveArray<T> {
    let mask = frozen_mask(rt.alloc(), mask).expect(rt, "memory");
    let values = buffer_of(rt.alloc(), values).expect(rt, "memory");
    PrimitiveArray::try_new(data_type, values, mask).expect(rt, "parts that fit")
}

/// Creates an array of slots of booleans.
pub(crate) fn booleans(rt: &(impl Abort + AllocGlobal), slots: &[Option<bool>]) -> BooleanArray {
    BooleanArray::from(rt.alloc(), slots).expect(rt, "memory")
}

/// Creates an array of stored booleans and marks.
pub(crate) fn stored_booleans(
    rt: &(impl Abort + AllocGlobal),
    (values, mask): (&str, &str),
) -> BooleanArray {
    let values = frozen_mask(rt.alloc(), values).expect(rt, "memory");
    let mask = frozen_mask(rt.alloc(), mask).expect(rt, "memory");
    let values = values.expect(rt, "stored values");
    BooleanArray::try_new(DataType::Boolean, values, mask).expect(rt, "parts that fit")
}

/// Creates an array of slots of bytes or text.
pub(crate) fn items<K: ByteKind, O: Offset, X: ByteItem<K>>(
    rt: &(impl Abort + AllocGlobal),
    slots: &[Option<X>],
) -> ByteArray<K, O> {
    ByteArray::<K, O>::from(rt.alloc(), slots).expect(rt, "memory")
}

/// Creates an array of offsets, bytes and marks, of the default type.
pub(crate) fn stored_items<K: ByteKind, O: Offset>(
    rt: &(impl Abort + AllocGlobal),
    (offsets, bytes, mask): Items,
) -> ByteArray<K, O> {
    let offsets = frozen_offsets(rt.alloc(), offsets).expect(rt, "offsets");
    let bytes = buffer_of(rt.alloc(), bytes).expect(rt, "memory");
    let mask = frozen_mask(rt.alloc(), mask).expect(rt, "memory");
    let array = ByteArray::try_new(K::default_type(O::IS_LARGE), offsets, bytes, mask);
    array.expect(rt, "parts that fit")
}

/// Compares a value in a row.
pub(crate) fn check_value<T: PartialEq + Debug + Drop>(
    rt: &impl Abort,
    row: &str,
    came: T,
    expected: T,
) {
    assert_text::value(came, expected).expect(rt, row);
}

/// Compares slots in a row with a text, as `[1 _ 2]`.
pub(crate) fn check_slots<T: Debug + Drop, I: Iterator<Item = Option<T>>>(
    rt: &impl Abort,
    row: &str,
    slots: I,
    expected: &str,
)
    requires can { I.can_next slots }
    requires ends { IsFinite (I.remaining slots) }
    requires again { (s t : I) → I.next_gives s None t → I.can_next t }
{
    assert_text::slots(slots, expected).expect(rt, row);
}

/// Compares a mask in a row with a text, which is `none` if there is none.
pub(crate) fn check_mask(rt: &impl Abort, row: &str, mask: Option<&Bitmap>, expected: &str) {
    assert_text::mask(mask, expected).expect(rt, row);
}

/// Compares an answer with an error, or with the slots, the mask and the type of an array.
pub(crate) fn check_numbers<T: NativeType + Debug>(
    rt: &impl Abort,
    row: &str,
    answer: Result<PrimitiveArray<T>, Error>,
    expected: Result<(&str, &str), Error>,
    data_type: &DataType,
) {
    let row = Text::of(format_args!("{row}, {data_type}"));
    let row = row.as_str();
    let (slots, mask) = match expected {
        Ok(texts) => texts,
        Err(error) => return check_value(rt, row, answer.err(), Some(error)),
    };
    let array = answer.expect(rt, row);
    check_slots(rt, row, array.iter(), slots);
    check_mask(rt, row, array.validity(), mask);
    check_value(rt, row, array.data_type(), data_type);
    drop(array);
}

/// Compares what a call answers with the slots and the mask of an array of type `Boolean`.
pub(crate) fn check_booleans(
    rt: &impl Abort,
    row: &str,
    call: &str,
    answer: Result<BooleanArray, Error>,
    (slots, mask): (&str, &str),
) {
    let row = Text::of(format_args!("{row}, {call}"));
    let row = row.as_str();
    let array = answer.expect(rt, row);
    check_value(rt, row, array.data_type(), &DataType::Boolean);
    assert_text::bools(array.iter(), slots).expect(rt, row);
    check_mask(rt, row, array.validity(), mask);
    drop(array);
}

/// Compares the slots of an array of text with a text. It stands here and not in the tests, since the borrow checker wants
/// one such iterator in a function.
pub(crate) fn check_texts(
    rt: &impl Abort,
    row: &str,
    answer: Result<Utf8Array<i32>, Error>,
    slots: &str,
) {
    let array = answer.expect(rt, row);
    check_slots(rt, row, array.iter(), slots);
    drop(array);
}

/// Compares the slots of an array of bytes with a text.
pub(crate) fn check_bytes(
    rt: &impl Abort,
    row: &str,
    answer: Result<BinaryArray<i64>, Error>,
    slots: &str,
) {
    let array = answer.expect(rt, row);
    check_slots(rt, row, array.iter(), slots);
    drop(array);
}

/// Compares an answer with an error, or with the parts of an array of the default type.
pub(crate) fn check_stored_items<K: ByteKind, O: Offset>(
    rt: &impl Abort,
    row: &str,
    answer: Result<ByteArray<K, O>, Error>,
    expected: Result<Items, Error>,
) {
    let (offsets, bytes, mask) = match expected {
        Ok(parts) => parts,
        Err(error) => return assert_text::value(answer.err(), Some(error)).expect(rt, row),
    };
    let array = answer.expect(rt, row);
    let data_type = K::default_type(O::IS_LARGE);
    let default_type = Text::of(format_args!("{data_type}"));
    drop(data_type);
    let of_array = Text::of(format_args!("{}", array.data_type()));
    assert_text::text(of_array, default_type.as_str()).expect(rt, row);
    let came = array.offsets().buffer().as_slice();
    check_value(rt, row, came.len(), offsets.len());
    for (i, (offset, expected)) in came.iter().zip(offsets.iter()).enumerate() {
        check_value(rt, row, (i, offset.try_to_usize()), (i, Some(*expected)));
    }
    check_value(rt, row, array.values().as_slice(), bytes);
    check_mask(rt, row, array.validity(), mask);
    drop(array);
}

/// Returns whether it is the left of two, and drops it. What is shared is left by `into_mut`.
pub(crate) fn is_left<L: Drop, R: Drop>(either: Either<L, R>) -> bool {
    match either {
        Left(_) => true,
        Right(_) => false,
    }
}
