//! Arrays of bytes and of text as arrays of any kind, by the trait `Array`.
use crate::ByteArray;
use arrow_bytes::{ByteKind, BytesAround};
use arrow_check::accessor::Bytes;
use arrow_column::Array;
use arrow_memory::bitmap::Bitmap;
use arrow_types::data_type::DataType;
use arrow_types::offset::Offset;

impl<K: ByteKind, O: Offset> Array for ByteArray<K, O> {
    type Around = BytesAround;

    type Stored = Bytes;

    ghost column = { λ array. array };

    #[inline(always)]
    fn len(&self) -> usize {
        self.len()
    }

    #[inline(always)]
    fn data_type(&self) -> &DataType {
        self.data_type()
    }

    #[inline(always)]
    fn validity(&self) -> Option<&Bitmap> {
        self.validity()
    }

    #[inline(always)]
    fn null_count(&self) -> usize {
        self.null_count()
    }

    #[inline(always)]
    fn is_null(&self, i: usize) -> bool {
        self.is_null(i)
    }
}
