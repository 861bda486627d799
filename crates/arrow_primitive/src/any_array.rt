//! Arrays of native values as arrays of any kind, by the trait `Array`.
use crate::PrimitiveArray;
use arrow_column::Array;
use arrow_memory::bitmap::Bitmap;
use arrow_types::data_type::DataType;
use arrow_types::native_type::NativeType;

impl<T: NativeType> Array for PrimitiveArray<T> {
    type Around = ();

    type Stored = T;

    ghost column = { λ array. array };

    #[inline(always)]
    fn len(&self) -> usize {
        self.len()
    }

    #[inline(always)]
    fn data_type(&self) -> &DataType {
        self.data_type()
    }

    #[inline(always)]
    fn validity(&self) -> Option<&Bitmap> {
        self.validity()
    }

    #[inline(always)]
    fn null_count(&self) -> usize {
        self.null_count()
    }

    #[inline(always)]
    fn is_null(&self, i: usize) -> bool {
        self.is_null(i)
    }
}
