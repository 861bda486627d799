//! Three-valued logic, in which a null is an unknown boolean: a result is null exactly if the known slots leave it
//! open.
ghost use Rattle.std.specs.Prelude.{◌≡◌, ◌==◌, ◌+◌, ◌<◌, ◌≤◌, ℕ, Bool, IfOk, Option, Some, is_some, length};
ghost use Rattle.std.specs.Prelude.{None, slice_get};
ghost use Rattle.std.specs.Int.{bit_at};
ghost use Rattle.arrow_types.specs.Failures.{OnlyOutOfMemory};
ghost use Rattle.arrow_boolean.specs.Fits.{boolean_type};
ghost use Rattle.arrow_column.specs.Column.{IsColumn, slots_of};
ghost use Rattle.compute_comparison.specs.Kleene.{KeepsSlotValues, all_of, any_of, kleene_and, kleene_or, known_slots};
ghost use Rattle.compute_comparison.specs.Kleene.{known_with_null, mask_of_known, slot_bit};
ghost use Rattle.compute_comparison.specs.Kleene.{HoldsSlotBlock, KnowsBlock};
ghost use Rattle.compute_comparison.specs.Slots.{CombinesWithSlot};
ghost use Rattle.compute_base.specs.Slots.{CombinesSlots};

use crate::boolean::{keep_slots, repeat_value};
use arrow_boolean::BooleanArray;
use arrow_memory::bitmap::{self, Bitmap};
use arrow_types::data_type::DataType;
use arrow_types::error::Error;
use compute_base::words::{
    MarkBlocks, MarkWords, collect_blocks, marks_block, marks_word, word_of,
};
use std::alloc::Global;
use std::marker::PhantomData;
use std::simd::prelude::*;

/// The values and the marks of 64 slots, as bits.
#[derive(Clone, Copy)]
struct SlotWords {
    values: u64,
    marks: u64,
}

/// The values and the marks of 512 slots, as the bits of eight words each.
#[derive(Clone, Copy)]
struct SlotBlocks {
    values: u64x8,
    marks: u64x8,
}

/// An operation of three-valued logic.
trait KleeneOperation {
    /// The result for two slots.
    ghost table: { Option Bool → Option Bool → Option Bool };

    /// Returns which of 64 results are known, from the values and the marks of the slots.
    fn known(left: u64, left_marks: u64, right: u64, right_marks: u64) -> u64
        ensures { (k : ℕ) → k < 64 → (bit_at result k == 1)
            ≡ is_some (table (slot_bit left left_marks k) (slot_bit right right_marks k)) };

    /// States that what is known beside a null is the slot's value.
    ghost with_null: { KeepsSlotValues table };
}

/// False where either slot is false.
struct KleeneAnd;

impl KleeneOperation for KleeneAnd {
    ghost use Rattle.compute_comparison.specs.Kleene.{and_with_null, kleene_and};

    ghost table = { kleene_and };

    ghost with_null = { and_with_null };

    #[inline(always)]
    fn known(left: u64, left_marks: u64, right: u64, right_marks: u64) -> u64 {
        (left_marks & right_marks) | (left_marks & !left) | (right_marks & !right)
    }
}

/// True where either slot is true.
struct KleeneOr;

impl KleeneOperation for KleeneOr {
    ghost use Rattle.compute_comparison.specs.Kleene.{kleene_or, or_with_null};

    ghost table = { kleene_or };

    ghost with_null = { or_with_null };

    #[inline(always)]
    fn known(left: u64, left_marks: u64, right: u64, right_marks: u64) -> u64 {
        (left_marks & right_marks) | (left_marks & left) | (right_marks & right)
    }
}

/// Returns the values and the marks of `count` slots from `place` on.
#[inline(always)]
fn slot_words(array: &BooleanArray, place: usize, count: usize) -> SlotWords
    requires few { count ≤ 64 }
    requires within { place + count ≤ length array.now.rows }
    ensures { (k : ℕ) → k < count → slice_get (slots_of array.now) (place + k)
        ≡ Some (slot_bit result.values result.marks k) }
{
    SlotWords {
        values: word_of(array.values(), place, count),
        marks: marks_word(array, place, count),
    }
}

/// Returns the values and the marks of 512 slots from `place` on.
#[inline(always)]
fn slot_blocks(array: &BooleanArray, place: usize) -> SlotBlocks
    requires { place + 512 ≤ length array.now.rows }
    ensures { HoldsSlotBlock (slots_of array.now) place result.values result.marks }
{
    SlotBlocks {
        values: array.values().block(place),
        marks: marks_block(array, place),
    }
}

/// Returns which of 512 results are known. The compiler makes vectors of the eight words.
#[inline(always)]
fn known_block<K: KleeneOperation>(left: SlotBlocks, right: SlotBlocks) -> u64x8
    ensures { KnowsBlock K.table left.values left.marks right.values right.marks result }
{
    let (left_values, left_marks) = (left.values.to_array(), left.marks.to_array());
    let (right_values, right_marks) = (right.values.to_array(), right.marks.to_array());
    let mut known = [0; 8];
    for i in 0..8 {
        known[i] = K::known(
            left_values[i],
            left_marks[i],
            right_values[i],
            right_marks[i],
        );
    }
    u64x8::from_array(known)
}

/// Which results of an operation on two arrays are known.
#[derive(Drop)]
struct Known<'a, K> {
    lhs: &'a BooleanArray,
    rhs: &'a BooleanArray,
    operation: PhantomData<K>,
}

impl<'a, K: KleeneOperation> MarkWords for Known<'a, K> {
    ghost use Rattle.arrow_column.specs.Column.{slots_of};
    ghost use Rattle.compute_comparison.specs.Kleene.{known_slots};

    ghost marks = { λ known. known_slots K.table (slots_of known.lhs.now) (slots_of known.rhs.now) };

    #[inline(always)]
    fn len(&self) -> usize {
        self.lhs.len().min(self.rhs.len())
    }

    #[inline(always)]
    fn word(&self, place: usize, count: usize) -> u64 {
        let left = slot_words(self.lhs, place, count);
        let right = slot_words(self.rhs, place, count);
        K::known(left.values, left.marks, right.values, right.marks)
    }
}

impl<'a, K: KleeneOperation> MarkBlocks for Known<'a, K> {
    #[inline(always)]
    fn block(&self, place: usize) -> u64x8 {
        known_block::<K>(slot_blocks(self.lhs, place), slot_blocks(self.rhs, place))
    }
}

/// Returns which results of an operation on two arrays are known.
fn known_marks<K: KleeneOperation>(
    alloc: Global,
    lhs: &BooleanArray,
    rhs: &BooleanArray,
) -> Result<Bitmap, Error>
    requires { length lhs.now.rows ≡ length rhs.now.rows }
    ensures ok { IfOk result (λ known. known ≡ known_slots K.table (slots_of lhs.now) (slots_of rhs.now)) }
    ensures err { OnlyOutOfMemory result }
{
    let source = Known {
        lhs,
        rhs,
        operation: PhantomData::<K>,
    };
    collect_blocks(alloc, &source)?.freeze()
}

/// Returns the mask of the result of an operation on two arrays, if either holds one.
// Values are combined apart, by `bitmap::and` and `bitmap::or`: these count in the same pass.
fn known_mask<K: KleeneOperation>(
    alloc: Global,
    lhs: &BooleanArray,
    rhs: &BooleanArray,
) -> Result<Option<Bitmap>, Error>
    requires { length lhs.now.rows ≡ length rhs.now.rows }
    ensures ok { IfOk result (λ mask. mask ≡ mask_of_known K.table lhs.now rhs.now) }
    ensures left { IsColumn lhs.now }
    ensures right { IsColumn rhs.now }
    ensures err { OnlyOutOfMemory result }
{
    match (lhs.validity(), rhs.validity()) {
        (None, None) => Ok(None),
        (Some(_), _) => Ok(Some(known_marks::<K>(alloc, lhs, rhs)?)),
        (None, Some(_)) => Ok(Some(known_marks::<K>(alloc, lhs, rhs)?)),
    }
}

/// Returns whether each slot of `lhs` and the slot of `rhs` at its place are true: false where
/// either is false, also if the other is null, and null where neither is false and one is null.
/// Both arrays must have equally many slots. The result holds a mask if either array does.
///
/// # Errors
/// `OutOfMemory` if an allocation fails.
pub fn and(alloc: Global, lhs: &BooleanArray, rhs: &BooleanArray) -> Result<BooleanArray, Error>
    requires { length lhs.now.rows ≡ length rhs.now.rows }
    ensures ok { IfOk result (CombinesSlots boolean_type kleene_and lhs.now rhs.now) }
    ensures err { OnlyOutOfMemory result }
{
    let values = bitmap::and(alloc, lhs.values(), rhs.values())?;
    let validity = known_mask::<KleeneAnd>(alloc, lhs, rhs)?;
    Ok(BooleanArray::new(DataType::Boolean, values, validity))
}

/// Returns whether each slot of `lhs` or the slot of `rhs` at its place is true: true where either
/// is true, also if the other is null, and null where neither is true and one is null. Both arrays
/// must have equally many slots. The result holds a mask if either array does.
///
/// # Errors
/// `OutOfMemory` if an allocation fails.
pub fn or(alloc: Global, lhs: &BooleanArray, rhs: &BooleanArray) -> Result<BooleanArray, Error>
    requires { length lhs.now.rows ≡ length rhs.now.rows }
    ensures ok { IfOk result (CombinesSlots boolean_type kleene_or lhs.now rhs.now) }
    ensures err { OnlyOutOfMemory result }
{
    let values = bitmap::or(alloc, lhs.values(), rhs.values())?;
    let validity = known_mask::<KleeneOr>(alloc, lhs, rhs)?;
    Ok(BooleanArray::new(DataType::Boolean, values, validity))
}

/// Which results of an operation on an array and a null are known.
#[derive(Drop)]
struct KnownWithNull<'a, K> {
    array: &'a BooleanArray,
    operation: PhantomData<K>,
}

impl<'a, K: KleeneOperation> MarkWords for KnownWithNull<'a, K> {
    ghost use Rattle.arrow_column.specs.Column.{slots_of};
    ghost use Rattle.compute_comparison.specs.Kleene.{known_with_null};

    ghost marks = { λ known. known_with_null K.table (slots_of known.array.now) };

    #[inline(always)]
    fn len(&self) -> usize {
        self.array.len()
    }

    #[inline(always)]
    fn word(&self, place: usize, count: usize) -> u64 {
        let slots = slot_words(self.array, place, count);
        K::known(slots.values, slots.marks, 0, 0)
    }
}

impl<'a, K: KleeneOperation> MarkBlocks for KnownWithNull<'a, K> {
    #[inline(always)]
    fn block(&self, place: usize) -> u64x8 {
        let nulls = SlotBlocks {
            values: u64x8::splat(0),
            marks: u64x8::splat(0),
        };
        known_block::<K>(slot_blocks(self.array, place), nulls)
    }
}

/// Returns which results of an operation on an array and a null are known.
fn known_beside_null<K: KleeneOperation>(
    alloc: Global,
    array: &BooleanArray,
) -> Result<Bitmap, Error>
    ensures ok { IfOk result (λ known. known ≡ known_with_null K.table (slots_of array.now)) }
    ensures err { OnlyOutOfMemory result }
{
    let source = KnownWithNull {
        array,
        operation: PhantomData::<K>,
    };
    collect_blocks(alloc, &source)?.freeze()
}

/// Returns the results of an operation on an array and a null: the values of the array, where these decide them.
fn combine_with_null<K: KleeneOperation>(
    alloc: Global,
    array: &BooleanArray,
) -> Result<BooleanArray, Error>
    ensures ok { IfOk result (CombinesWithSlot K.table array.now None) }
    ensures err { OnlyOutOfMemory result }
{
    let known = known_beside_null::<K>(alloc, array)?;
    let values = array.values().clone()?;
    Ok(BooleanArray::new(DataType::Boolean, values, Some(known)))
}

/// Returns whether each slot of `array` and `scalar` are true: false where either is false, also if the other is null,
/// and null where neither is false and one is null. The result holds a mask if `scalar` is null, or if it is true and
/// the array holds one.
///
/// # Errors
/// `OutOfMemory` if an allocation fails.
pub fn and_scalar(
    alloc: Global,
    array: &BooleanArray,
    scalar: Option<bool>,
) -> Result<BooleanArray, Error>
    ensures ok { IfOk result (CombinesWithSlot kleene_and array.now scalar) }
    ensures err { OnlyOutOfMemory result }
{
    match scalar {
        Some(true) => keep_slots(array),
        Some(false) => repeat_value(alloc, array.len(), false),
        None => combine_with_null::<KleeneAnd>(alloc, array),
    }
}

/// Returns whether each slot of `array` or `scalar` is true: true where either is true, also if the other is null, and
/// null where neither is true and one is null. The result holds a mask if `scalar` is null, or if it is false and the
/// array holds one.
///
/// # Errors
/// `OutOfMemory` if an allocation fails.
pub fn or_scalar(
    alloc: Global,
    array: &BooleanArray,
    scalar: Option<bool>,
) -> Result<BooleanArray, Error>
    ensures ok { IfOk result (CombinesWithSlot kleene_or array.now scalar) }
    ensures err { OnlyOutOfMemory result }
{
    match scalar {
        Some(true) => repeat_value(alloc, array.len(), true),
        Some(false) => keep_slots(array),
        None => combine_with_null::<KleeneOr>(alloc, array),
    }
}

/// Returns whether any slot is true: `None` if no slot is true and at least one is null.
pub fn any(array: &BooleanArray) -> Option<bool>
    ensures { result ≡ any_of (slots_of array.now) }
{
    if array.true_count() > 0 {
        Some(true)
    } else if array.null_count() > 0 {
        None
    } else {
        Some(false)
    }
}

/// Returns whether all slots are true: `None` if no slot is false and at least one is null.
pub fn all(array: &BooleanArray) -> Option<bool>
    ensures { result ≡ all_of (slots_of array.now) }
{
    let nulls = array.null_count();
    if array.true_count() < array.len() - nulls {
        Some(false)
    } else if nulls > 0 {
        None
    } else {
        Some(true)
    }
}
