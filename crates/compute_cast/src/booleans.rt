//! Conversions of booleans to integers, and of integers to booleans.
ghost use Rattle.std.specs.Prelude.{◌≡◌, IfOk, map, option_map};
ghost use Rattle.arrow_types.specs.Failures.{OnlyOutOfMemory};
ghost use Rattle.arrow_types.specs.Types.{IsRightType, logical_type};
ghost use Rattle.arrow_types.specs.declared.physical_type.PhysicalType.TheVariants as PhysicalType;
ghost use Rattle.arrow_boolean.specs.Fits.{boolean_type};
ghost use Rattle.compute_cast.specs.Cast.{MapsSlots, is_nonzero, value_of_bool};

use crate::wrap_number::WrapNumber;
use arrow_boolean::BooleanArray;
use arrow_integers::NativeArithmetics;
use arrow_memory::bitmap::Bitmap;
use arrow_memory::buffer::Buffer;
use arrow_primitive::PrimitiveArray;
use arrow_types::data_type::DataType;
use arrow_types::error::Error;
use arrow_types::physical_type::PhysicalType;
use compute_base::bits::is_set;
use compute_base::masks::clone_mask;
use compute_base::words::{MarkSource, PackedMarks, collect_marks};
use std::alloc::Global;

/// Returns one for each set mark, and zero for each clear one. Marks are read 64 at a time.
fn number_marks<O: WrapNumber>(alloc: Global, marks: &Bitmap) -> Result<Vec<O>, Error>
    ensures ok { IfOk result (λ made. made.items ≡ map (value_of_bool O.wrap) marks.now) }
    ensures err { OnlyOutOfMemory result }
{
    let mut made = Vec::with_capacity(alloc, marks.len())?;
    let words = marks.len() / 64;
    for w in 0..words {
        let word = marks.word(64 * w);
        for k in 0..64usize {
            made.push_reserved(O::wrap_number(i128::from(is_set(word, k))));
        }
    }
    for i in 64 * words..marks.len() {
        made.push_reserved(O::wrap_number(i128::from(marks.get_bit(i))));
    }
    Ok(made)
}

/// Converts each slot to one where it is true, and to zero where it is false. The data type must have the physical type
/// of `O`. The result holds a mask if the array does.
///
/// # Errors
/// `OutOfMemory` if an allocation fails.
pub fn boolean_to_primitive<O: WrapNumber>(
    alloc: Global,
    array: &BooleanArray,
    data_type: DataType,
) -> Result<PrimitiveArray<O>, Error>
    requires { IsRightType (PhysicalType.Primitive O.PRIMITIVE) (logical_type data_type) }
    ensures ok { IfOk result
        (MapsSlots (logical_type data_type) (option_map (value_of_bool O.wrap)) array.now) }
    ensures err { OnlyOutOfMemory result }
{
    let values = Buffer::from_vec(number_marks::<O>(alloc, array.values())?)?;
    let validity = clone_mask(array.validity())?;
    Ok(PrimitiveArray::new(data_type, values, validity))
}

/// Returns whether a value is not zero.
#[inline(always)]
fn is_nonzero<T: NativeArithmetics>(value: T) -> bool
    ensures { result ≡ is_nonzero (T.number value) }
{
    value != T::default()
}

/// Which values of a slice are not zero.
#[derive(Drop)]
struct NonzeroNumbers<'a, T> {
    values: &'a [T],
}

impl<'a, T: NativeArithmetics> MarkSource for NonzeroNumbers<'a, T> {
    ghost use Rattle.std.specs.Prelude.{map};
    ghost use Rattle.compute_cast.specs.Cast.{is_nonzero};

    ghost marks = { λ numbers. map (λ x. is_nonzero (T.number x)) numbers.values.now };

    #[inline(always)]
    fn len(&self) -> usize {
        self.values.len()
    }

    #[inline(always)]
    fn mark(&self, i: usize) -> bool {
        is_nonzero(self.values[i])
    }
}

/// Returns which values are not zero.
fn nonzero_marks<T: NativeArithmetics>(alloc: Global, values: &[T]) -> Result<Bitmap, Error>
    ensures ok { IfOk result (λ marks. marks ≡ map (λ x. is_nonzero (T.number x)) values.now) }
    ensures err { OnlyOutOfMemory result }
{
    let source = NonzeroNumbers { values };
    collect_marks(alloc, &PackedMarks { source })?.freeze()
}

/// Converts each slot to a boolean: whether its number is not zero. The result holds a mask if the array does.
///
/// # Errors
/// `OutOfMemory` if an allocation fails.
pub fn primitive_to_boolean<T: NativeArithmetics>(
    alloc: Global,
    array: &PrimitiveArray<T>,
) -> Result<BooleanArray, Error>
    ensures ok { IfOk result (MapsSlots boolean_type (option_map (λ x. is_nonzero (T.number x))) array.now) }
    ensures err { OnlyOutOfMemory result }
{
    let marks = nonzero_marks(alloc, array.values().as_slice())?;
    let validity = clone_mask(array.validity())?;
    Ok(BooleanArray::new(DataType::Boolean, marks, validity))
}
