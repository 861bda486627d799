//! Results of operations on two arrays, and on an array and one right side for all of its slots: a value, or none.
ghost use Rattle.std.specs.Prelude.{◌≡◌, IfOk, length, map};
ghost use Rattle.arrow_types.specs.Failures.{OnlyOutOfMemory};
ghost use Rattle.compute_arithmetics.specs.Arithmetic.{CombinesValues, CombinesValuesIf, MapsValues, MapsValuesIf};
ghost use Rattle.compute_arithmetics.specs.Arithmetic.{of_pairs};

use crate::operation::{CheckedOperation, Operation};
use arrow_integers::NativeArithmetics;
use arrow_memory::buffer::Buffer;
use arrow_primitive::PrimitiveArray;
use arrow_types::error::Error;
use compute_base::masks::{clone_mask, mask_of_both};
use compute_base::slots::{SlotParts, SlotSource, collect_slots};
use std::alloc::Global;
use std::marker::PhantomData;

/// Returns the results of the operation on the values at each index.
fn combine_values<T: NativeArithmetics, O: Operation<T, T>>(
    alloc: Global,
    lhs: &[T],
    rhs: &[T],
) -> Result<Vec<T>, Error>
    requires { length lhs.now ≡ length rhs.now }
    ensures ok { IfOk result (λ values. values.items ≡ of_pairs O.make lhs.now rhs.now) }
    ensures err { OnlyOutOfMemory result }
{
    let mut values = Vec::with_capacity(alloc, lhs.len())?;
    for i in 0..lhs.len() {
        values.push_reserved(O::apply(lhs[i], rhs[i]));
    }
    Ok(values)
}

/// Returns the results of the operation on each value and `rhs`.
fn map_values<T: NativeArithmetics, R: Copy, O: Operation<T, R>>(
    alloc: Global,
    lhs: &[T],
    rhs: R,
) -> Result<Vec<T>, Error>
    ensures ok { IfOk result (λ values. values.items ≡ map (λ x. O.make x rhs) lhs.now) }
    ensures err { OnlyOutOfMemory result }
{
    let mut values = Vec::with_capacity(alloc, lhs.len())?;
    for i in 0..lhs.len() {
        values.push_reserved(O::apply(lhs[i], rhs));
    }
    Ok(values)
}

/// Returns the results of the operation on the slots at each index of two arrays of equal length.
pub(crate) fn combine<T: NativeArithmetics, O: Operation<T, T>>(
    alloc: Global,
    lhs: &PrimitiveArray<T>,
    rhs: &PrimitiveArray<T>,
) -> Result<PrimitiveArray<T>, Error>
    requires { length lhs.now.rows ≡ length rhs.now.rows }
    ensures ok { IfOk result (CombinesValues O.make lhs.now rhs.now) }
    ensures err { OnlyOutOfMemory result }
{
    let (first, second) = (lhs.values().as_slice(), rhs.values().as_slice());
    let values = Buffer::from_vec(combine_values::<T, O>(alloc, first, second)?)?;
    let validity = mask_of_both(alloc, lhs.validity(), rhs.validity())?;
    Ok(PrimitiveArray::new(lhs.data_type().clone()?, values, validity))
}

/// Returns the results of the operation on each slot and `rhs`.
pub(crate) fn combine_scalar<T: NativeArithmetics, R: Copy, O: Operation<T, R>>(
    alloc: Global,
    lhs: &PrimitiveArray<T>,
    rhs: R,
) -> Result<PrimitiveArray<T>, Error>
    ensures ok { IfOk result (MapsValues (λ x. O.make x rhs) lhs.now) }
    ensures err { OnlyOutOfMemory result }
{
    let values = Buffer::from_vec(map_values::<T, R, O>(alloc, lhs.values().as_slice(), rhs)?)?;
    let validity = clone_mask(lhs.validity())?;
    Ok(PrimitiveArray::new(lhs.data_type().clone()?, values, validity))
}

/// The outcomes of a checked operation on the values at each index of two slices.
#[derive(Drop)]
struct CheckedPairs<'a, T, O> {
    lhs: &'a [T],
    rhs: &'a [T],
    operation: PhantomData<O>,
}

impl<'a, T: NativeArithmetics, O: CheckedOperation<T, T>> SlotSource<T> for CheckedPairs<'a, T, O> {
    ghost use Rattle.arrow_column.specs.Combined.{of_pairs};

    ghost slots = { λ pairs. of_pairs O.make pairs.lhs.now pairs.rhs.now };

    #[inline(always)]
    fn len(&self) -> usize {
        self.lhs.len().min(self.rhs.len())
    }

    #[inline(always)]
    fn slot(&self, i: usize) -> Option<T> {
        O::apply(self.lhs[i], self.rhs[i])
    }
}

/// The outcomes of a checked operation on the value at each index of a slice and one right side.
#[derive(Drop)]
struct CheckedScalar<'a, T, R, O> {
    lhs: &'a [T],
    rhs: R,
    operation: PhantomData<O>,
}

impl<'a, T: NativeArithmetics, R: Copy, O: CheckedOperation<T, R>> SlotSource<T>
    for CheckedScalar<'a, T, R, O> {
    ghost use Rattle.std.specs.Prelude.{map};

    ghost slots = { λ pairs. map (λ x. O.make x pairs.rhs) pairs.lhs.now };

    #[inline(always)]
    fn len(&self) -> usize {
        self.lhs.len()
    }

    #[inline(always)]
    fn slot(&self, i: usize) -> Option<T> {
        O::apply(self.lhs[i], self.rhs)
    }
}

/// Returns the results of the checked operation on the slots at each index of two arrays of equal
/// length.
pub(crate) fn combine_checked<T: NativeArithmetics, O: CheckedOperation<T, T>>(
    alloc: Global,
    lhs: &PrimitiveArray<T>,
    rhs: &PrimitiveArray<T>,
) -> Result<PrimitiveArray<T>, Error>
    requires { length lhs.now.rows ≡ length rhs.now.rows }
    ensures ok { IfOk result (CombinesValuesIf O.make lhs.now rhs.now) }
    ensures err { OnlyOutOfMemory result }
{
    let (first, second) = (lhs.values().as_slice(), rhs.values().as_slice());
    let source = CheckedPairs {
        lhs: first,
        rhs: second,
        operation: PhantomData::<O>,
    };
    let SlotParts { values, marks } = collect_slots::<T, _>(alloc, &source)?;
    let marks = marks.freeze()?;
    let values = Buffer::from_vec(values)?;
    let both = mask_of_both(alloc, lhs.validity(), rhs.validity())?;
    let validity = mask_of_both(alloc, both.as_ref(), Some(&marks))?;
    Ok(PrimitiveArray::new(lhs.data_type().clone()?, values, validity))
}

/// Returns the results of the checked operation on each slot and `rhs`.
pub(crate) fn combine_checked_scalar<T: NativeArithmetics, R: Copy, O: CheckedOperation<T, R>>(
    alloc: Global,
    lhs: &PrimitiveArray<T>,
    rhs: R,
) -> Result<PrimitiveArray<T>, Error>
    ensures ok { IfOk result (MapsValuesIf (λ x. O.make x rhs) lhs.now) }
    ensures err { OnlyOutOfMemory result }
{
    let source = CheckedScalar {
        lhs: lhs.values().as_slice(),
        rhs,
        operation: PhantomData::<O>,
    };
    let SlotParts { values, marks } = collect_slots::<T, _>(alloc, &source)?;
    let marks = marks.freeze()?;
    let values = Buffer::from_vec(values)?;
    let validity = mask_of_both(alloc, lhs.validity(), Some(&marks))?;
    Ok(PrimitiveArray::new(lhs.data_type().clone()?, values, validity))
}
