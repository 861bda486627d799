//! Callers of laws: the contract of each function follows from a law and from the contracts of the calls that it makes.
ghost use Rattle.std.specs.Prelude.{◌≡◌, ◌+◌, ◌+ℤ◌, ◌^◌, ◌++◌, ◌∷◌, ◌<◌, ◌≤◌, [], ℕ, IfOk, List, None, OnOk, Some};
ghost use Rattle.std.specs.Prelude.{count_by, flat_map, length, map, slice_get, slice_range, sum_by, true};
ghost use Rattle.std.specs.List.Sorted.{IsPermutation};
ghost use Rattle.std.specs.Ordering.{int_cmp, is_ge};
ghost use Rattle.arrow_integers.specs.NativeArithmetics.{DiffersByMultiple};
ghost use Rattle.arrow_memory.specs.Rows.{FitsMask};
ghost use Rattle.arrow_column.specs.Column.{mask_of, slots_of, stored_values};
ghost use Rattle.arrow_check.specs.Pieces.{items_of};
ghost use Rattle.arrow_bytes.specs.Pieces.{nothing_around};
ghost use Rattle.arrow_bytes.specs.Selection.{asked, at_keys, filtered, where_set};
ghost use Rattle.compute_comparison.specs.Comparison.{compare_slot};

use arrow_boolean::BooleanArray;
use arrow_bytes::BytesAround;
use arrow_bytes::laws::items_by_offsets;
use arrow_check::accessor::Bytes;
use arrow_column::laws::{
    appended_slots, cut_slots, joined_slots, plain_cut_slots, rows_of_parts, slots_by_rows,
    slots_of_parts,
};
use arrow_integers::NativeArithmetics;
use arrow_integers::laws::{nearest_numbers, wrapped_numbers};
use arrow_kernels::laws::{
    concatenated_slots, filtered_slots, marked_items, retyped_slots, taken_slots,
};
use arrow_kernels::{concat_utf8, filter_utf8, take_utf8, true_count, widen_utf8};
use arrow_memory::bitmap::Bitmap;
use arrow_memory::buffer::Buffer;
use arrow_memory::offset::OffsetsBuffer;
use arrow_primitive::{MutablePrimitiveArray, PrimitiveArray};
use arrow_types::data_type::DataType;
use arrow_types::error::Error;
use arrow_types::index_key::IndexKey;
use arrow_utf8::Utf8Array;
use compute_comparison::boolean::not;
use compute_comparison::comparison::lt_scalar;
use compute_comparison::laws::compared_slots;
use compute_sort::SortOptions;
use compute_sort::laws::sorted_slots;
use compute_sort::sort::sort;
use std::alloc::Global;

type Numbers = PrimitiveArray<i64>;

type NumbersBuilder = MutablePrimitiveArray<i64>;

type Texts = Utf8Array<i32>;

/// Creates an array of parts that fit.
fn array_of_parts(values: Buffer<i64>, mask: Option<Bitmap>) -> Numbers
    requires { FitsMask values mask }
    ensures values { stored_values result ≡ values }
    ensures count { length result.rows ≡ length values }
    ensures mask { mask_of result ≡ mask }
{
    rows_of_parts::<(), i64>();
    PrimitiveArray::new(DataType::Int64, values, mask)
}

/// Creates an array without nulls.
fn array_of_values(values: Buffer<i64>) -> Numbers
    ensures { slots_of result ≡ map Some values }
{
    slots_of_parts::<(), i64>();
    PrimitiveArray::new(DataType::Int64, values, None)
}

/// Returns the number of slots.
fn count_slots(array: &Numbers) -> usize
    ensures { result ≡ length (slots_of array.now) }
{
    slots_by_rows::<(), i64>();
    array.len()
}

/// Appends a value and a null.
fn push_value_and_null(builder: &mut NumbersBuilder, value: i64) -> Result<(), Error>
    ensures { OnOk result (slots_of builder.new ≡ (slots_of builder.old ++ Some value ∷ []) ++ None ∷ []) }
{
    appended_slots::<(), i64>();
    builder.push(Some(value))?;
    builder.push(None)
}

/// Appends valid slots.
fn extend(builder: &mut NumbersBuilder, values: &[i64]) -> Result<(), Error>
    ensures { OnOk result (slots_of builder.new ≡ slots_of builder.old ++ map Some values.now) }
{
    appended_slots::<(), i64>();
    builder.extend_from_slice(values)
}

/// Freezes a builder.
fn freeze(builder: NumbersBuilder) -> Result<Numbers, Error>
    ensures { IfOk result (λ array. slots_of array ≡ slots_of builder) }
{
    appended_slots::<(), i64>();
    builder.freeze()
}

/// Appends the slots of another builder.
fn join(builder: &mut NumbersBuilder, other: &NumbersBuilder) -> Result<(), Error>
    ensures { OnOk result (slots_of builder.new ≡ slots_of builder.old ++ slots_of other.now) }
{
    joined_slots::<(), (), i64>();
    builder.try_extend_from_self(other)
}

/// Keeps the second and the third slot.
fn keep_two(array: &mut Numbers)
    requires { 3 ≤ length array.old.rows }
    ensures count { length array.new.rows ≡ 2 }
    ensures second { slice_get (slots_of array.new) 1 ≡ slice_get (slots_of array.old) 2 }
{
    plain_cut_slots::<i64>();
    array.slice(1, 2);
}

/// Keeps the second and the third text.
fn keep_two_texts(array: &mut Texts)
    requires { 3 ≤ length array.old.rows }
    ensures count { length array.new.rows ≡ 2 }
    ensures second { slice_get (slots_of array.new) 1 ≡ slice_get (slots_of array.old) 2 }
{
    cut_slots::<BytesAround, Bytes>();
    array.slice(1, 2);
}

/// Returns how many texts a filter would leave, without filtering them.
fn count_left(array: &Texts, filter: &BooleanArray) -> usize
    requires { length filter.now.rows ≡ length array.now.rows }
    ensures { result ≡ length (filtered nothing_around array.now filter.now).rows }
{
    filtered_slots::<BytesAround, Bytes>();
    true_count(filter)
}

/// Returns the texts of several arrays.
fn concat(alloc: Global, arrays: &[Texts]) -> Result<Texts, Error>
    requires { 0 < length arrays.now }
    ensures slots { IfOk result (λ made. slots_of made ≡ flat_map slots_of arrays.now) }
    ensures count { IfOk result (λ made. length made.rows ≡ sum_by (λ array. length array.rows) arrays.now) }
{
    concatenated_slots::<BytesAround, Bytes>();
    concat_utf8(alloc, arrays)
}

/// Returns the texts that a filter leaves.
fn filter(alloc: Global, array: &Texts, filter: &BooleanArray) -> Result<Texts, Error>
    requires { length filter.now.rows ≡ length array.now.rows }
    ensures slots { IfOk result (λ kept. slots_of kept ≡ where_set (asked filter.now) (slots_of array.now)) }
    ensures count { IfOk result (λ kept. length kept.rows ≡ count_by (λ mark. mark) (asked filter.now)) }
{
    filtered_slots::<BytesAround, Bytes>();
    filter_utf8(alloc, array, filter)
}

/// Returns the texts at keys: one for each key, since none of the keys was out of bounds.
fn take<K: IndexKey>(alloc: Global, array: &Texts, keys: &[K]) -> Result<Texts, Error>
    ensures slots { IfOk result (λ made. slots_of made ≡ at_keys K.number keys.now (slots_of array.now)) }
    ensures count { IfOk result (λ made. length made.rows ≡ length keys.now) }
{
    taken_slots::<BytesAround, Bytes, K>();
    take_utf8(alloc, array, keys)
}

/// Returns the same texts over wide offsets.
fn widen(alloc: Global, array: &Texts) -> Result<Utf8Array<i64>, Error>
    ensures { IfOk result (λ wide. slots_of wide ≡ slots_of array.now) }
{
    retyped_slots::<BytesAround, Bytes>();
    widen_utf8(alloc, array)
}

/// Does nothing. Its contract says that set marks leave all values.
fn count_marked()
    ensures { (values : List ℕ) → length (where_set (map (λ _. true) values) values)
        ≡ count_by (λ mark. mark) (map (λ _. true) values) }
{
    marked_items::<usize, usize>();
}

/// Returns the number of lists between offsets, whatever the rows of their values.
fn count_lists(offsets: &OffsetsBuffer<i32>) -> usize
    ensures { (rows : List ℕ) → result ≡ length (items_of offsets.now rows) }
{
    items_by_offsets::<usize>();
    offsets.len_proxy()
}

/// Returns where the list at `index` begins and ends.
fn list_range(offsets: &OffsetsBuffer<i32>, index: usize) -> (usize, usize)
    requires { index + 1 < length offsets.now }
    ensures { (rows : List ℕ) → slice_get (items_of offsets.now rows) index
        ≡ Some (slice_range rows result.0 result.1) }
{
    items_by_offsets::<usize>();
    offsets.start_end(index)
}

/// Adds two numbers whose sum fits: it is the nearest number to itself.
fn add_fitting<T: NativeArithmetics>(lhs: T, rhs: T) -> T
    requires { T.fits (T.number lhs +ℤ T.number rhs) ≡ true }
    ensures { T.number result ≡ T.number lhs +ℤ T.number rhs }
{
    nearest_numbers::<T>();
    lhs.saturating_add(rhs)
}

/// Adds two numbers: the result differs from their sum by a multiple of 2 to the number of bits.
fn add_wrapping<T: NativeArithmetics>(lhs: T, rhs: T) -> T
    ensures { DiffersByMultiple (2 ^ T.bits) (T.number lhs +ℤ T.number rhs) (T.number result) }
{
    wrapped_numbers::<T>();
    lhs.wrapping_add(rhs)
}

/// Returns whether each value is not less than a number; null where it is null.
fn is_not_less(alloc: Global, array: &Numbers, number: i64) -> Result<BooleanArray, Error>
    ensures { IfOk result (λ made.
        slots_of made ≡ map (compare_slot is_ge int_cmp number) (slots_of array.now)) }
{
    compared_slots::<i64>();
    let less = lt_scalar(alloc, array, number)?;
    not(alloc, &less)
}

/// Sorts an array: the result has the same slots.
fn sort_all(alloc: Global, array: &Numbers, options: SortOptions) -> Result<Numbers, Error>
    ensures { IfOk result (λ made. IsPermutation (slots_of array.now) (slots_of made)) }
{
    sorted_slots::<i64>();
    sort(alloc, array, options, None)
}
