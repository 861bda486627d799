//! A call whose contract follows from a law. It stands in a file of its own: the toolchain refuses a clause about an
//! array in a file that imports `DataType` from a crate that passes it on.
ghost use Rattle.std.specs.Prelude.{◌≡◌, IfOk};
ghost use Rattle.dethrugn.specs.Column.{slots_of};

use dethrugn::array::Utf8Array;
use dethrugn::buffer::Buffer;
use dethrugn::compute::cast::widen_utf8;
use dethrugn::error::Error;
use dethrugn::laws::BytesAround;
use dethrugn::laws::kernels::retyped_slots;
use std::alloc::Global;

/// Returns the same slots over offsets of 64 bits. The contract of `widen_utf8` names the column that
/// it makes, and a law says that this column has the same slots. A law is a function with an empty
/// body, which is called where its fact is needed. It takes two types: of what lies around the items
/// and of an item.
pub(crate) fn widen(alloc: Global, names: &Utf8Array<i32>) -> Result<Utf8Array<i64>, Error>
    ensures { IfOk result (λ wide. slots_of wide ≡ slots_of names.now) }
{
    retyped_slots::<BytesAround, Buffer<u8>>();
    widen_utf8(alloc, names)
}
