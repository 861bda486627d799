//! Conversions between types of integers: wrapped, as by Rust's `as`, or null where a number does not fit.
ghost use Rattle.std.specs.Prelude.{◌≡◌, IfOk, map, option_map};
ghost use Rattle.arrow_types.specs.Failures.{OnlyOutOfMemory};
ghost use Rattle.arrow_types.specs.Types.{IsRightType, logical_type};
ghost use Rattle.arrow_types.specs.declared.physical_type.PhysicalType.TheVariants as PhysicalType;
ghost use Rattle.compute_cast.specs.Cast.{CastsSlots, MapsSlots, MapsSlotsIf, of_same_number};

use crate::options::CastOptions;
use crate::wrap_number::WrapNumber;
use arrow_integers::NativeArithmetics;
use arrow_memory::bitmap::Bitmap;
use arrow_memory::buffer::Buffer;
use arrow_primitive::PrimitiveArray;
use arrow_types::data_type::DataType;
use arrow_types::error::Error;
use arrow_types::physical_type::PhysicalType;
use compute_base::masks::{clone_mask, mask_of_both};
use compute_base::words::{MarkSource, PackedMarks, collect_marks};
use std::alloc::Global;
use std::marker::PhantomData;

/// Returns the values to which the numbers of `values` wrap.
fn wrap_values<I: NativeArithmetics, O: WrapNumber>(
    alloc: Global,
    values: &[I],
) -> Result<Vec<O>, Error>
    ensures ok { IfOk result (λ made. made.items ≡ map (λ x. O.wrap (I.number x)) values.now) }
    ensures err { OnlyOutOfMemory result }
{
    let mut made = Vec::with_capacity(alloc, values.len())?;
    for i in 0..values.len() {
        made.push_reserved(O::wrap_number(values[i].to_i128()));
    }
    Ok(made)
}

/// Converts each slot to the value of another type to which its number wraps, as Rust's `as` does. The data type must
/// have the physical type of `O`. The result holds a mask if the array does.
///
/// # Errors
/// `OutOfMemory` if an allocation fails.
pub fn primitive_as_primitive<I: NativeArithmetics, O: WrapNumber>(
    alloc: Global,
    array: &PrimitiveArray<I>,
    data_type: DataType,
) -> Result<PrimitiveArray<O>, Error>
    requires { IsRightType (PhysicalType.Primitive O.PRIMITIVE) (logical_type data_type) }
    ensures ok { IfOk result (MapsSlots (logical_type data_type) (option_map (λ x. O.wrap (I.number x))) array.now) }
    ensures err { OnlyOutOfMemory result }
{
    let values = Buffer::from_vec(wrap_values::<I, O>(alloc, array.values().as_slice())?)?;
    let validity = clone_mask(array.validity())?;
    Ok(PrimitiveArray::new(data_type, values, validity))
}

/// Returns whether a number fits: whether the value to which it wraps has that number. This takes fewer instructions
/// than `from_i128`.
#[inline(always)]
fn is_fitting<O: WrapNumber>(number: i128) -> bool
    ensures { result ≡ O.fits number }
{
    O::wrap_number(number).to_i128() == number
}

/// Which numbers of the values of a slice fit in another type.
#[derive(Drop)]
struct FittingNumbers<'a, I, O> {
    values: &'a [I],
    target: PhantomData<O>,
}

impl<'a, I: NativeArithmetics, O: WrapNumber> MarkSource for FittingNumbers<'a, I, O> {
    ghost use Rattle.std.specs.Prelude.{map};

    ghost marks = { λ numbers. map (λ x. O.fits (I.number x)) numbers.values.now };

    #[inline(always)]
    fn len(&self) -> usize {
        self.values.len()
    }

    #[inline(always)]
    fn mark(&self, i: usize) -> bool {
        is_fitting::<O>(self.values[i].to_i128())
    }
}

/// Returns which of the numbers of `values` fit.
fn fitting_marks<I: NativeArithmetics, O: WrapNumber>(
    alloc: Global,
    values: &[I],
) -> Result<Bitmap, Error>
    ensures ok { IfOk result (λ marks. marks ≡ map (λ x. O.fits (I.number x)) values.now) }
    ensures err { OnlyOutOfMemory result }
{
    let source = FittingNumbers {
        values,
        target: PhantomData::<O>,
    };
    collect_marks(alloc, &PackedMarks { source })?.freeze()
}

/// Converts each slot to the value of another type that has its number: null where it does not fit. The data type must
/// have the physical type of `O`. The result holds a mask.
///
/// # Errors
/// `OutOfMemory` if an allocation fails.
pub fn primitive_to_primitive<I: NativeArithmetics, O: WrapNumber>(
    alloc: Global,
    array: &PrimitiveArray<I>,
    data_type: DataType,
) -> Result<PrimitiveArray<O>, Error>
    requires { IsRightType (PhysicalType.Primitive O.PRIMITIVE) (logical_type data_type) }
    ensures ok { IfOk result (MapsSlotsIf (logical_type data_type)
        (of_same_number I.number O.fits O.wrap) array.now) }
    ensures err { OnlyOutOfMemory result }
{
    let numbers = array.values().as_slice();
    let marks = fitting_marks::<I, O>(alloc, numbers)?;
    let values = Buffer::from_vec(wrap_values::<I, O>(alloc, numbers)?)?;
    let validity = mask_of_both(alloc, array.validity(), Some(&marks))?;
    Ok(PrimitiveArray::new(data_type, values, validity))
}

/// Converts each slot to the value of another type that has its number. Where it does not fit, it wraps if `options`
/// says so, as by [`primitive_as_primitive`], and otherwise the slot is null, as by [`primitive_to_primitive`]. The
/// data type must have the physical type of `O`. The result holds a mask, unless numbers wrap and the array holds none.
///
/// # Errors
/// `OutOfMemory` if an allocation fails.
pub fn cast_primitive<I: NativeArithmetics, O: WrapNumber>(
    alloc: Global,
    array: &PrimitiveArray<I>,
    data_type: DataType,
    options: CastOptions,
) -> Result<PrimitiveArray<O>, Error>
    requires { IsRightType (PhysicalType.Primitive O.PRIMITIVE) (logical_type data_type) }
    ensures ok { IfOk result (CastsSlots I.number O.fits O.wrap options.wrapped (logical_type data_type) array.now) }
    ensures err { OnlyOutOfMemory result }
{
    if options.wrapped {
        primitive_as_primitive(alloc, array, data_type)
    } else {
        primitive_to_primitive(alloc, array, data_type)
    }
}
