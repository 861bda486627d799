//! Some rows of an array, by the laws of slices and kernels.
ghost use Rattle.std.specs.Prelude.{◌≡◌, ◌+◌, ◌<◌, ◌-◌, ◌^◌, ⊤, ℕ, IfErr, IfOk, MatchOption, flat_map, length};
ghost use Rattle.std.specs.Prelude.{slice_get};
ghost use Rattle.dethrugn.specs.Column.{FitsCut, refused_growth, slots_of};
ghost use Rattle.dethrugn.specs.Failures.{OnlyOutOfMemory};
ghost use Rattle.dethrugn.specs.Indexes.{FailsAt};
ghost use Rattle.dethrugn.specs.Selection.{TakeRefused, asked, at_keys, concat_overflows, first_out_of_bounds};
ghost use Rattle.dethrugn.specs.Selection.{where_set};
ghost use Rattle.example_recipes.specs.Rows.{max_offset};

use dethrugn::array::{BooleanArray, Utf8Array};
use dethrugn::buffer::Buffer;
use dethrugn::compute::concatenate::concat_utf8;
use dethrugn::compute::filter::filter_utf8;
use dethrugn::compute::take::take_utf8;
use dethrugn::error::Error;
use dethrugn::laws::BytesAround;
use dethrugn::laws::column::cut_slots;
use dethrugn::laws::kernels::{concatenated_slots, filtered_slots, taken_slots};
use std::alloc::Global;

/// Keeps the `len` texts from `offset` on.
pub fn keep_range(names: &mut Utf8Array<i32>, offset: usize, len: usize)
    requires { FitsCut names.old offset len }
    ensures count { length names.new.rows ≡ len }
    ensures each { (i : ℕ) → i < len → slice_get (slots_of names.new) i ≡ slice_get (slots_of names.old) (offset + i) }
{
    cut_slots::<BytesAround, Buffer<u8>>();
    names.slice(offset, len);
}

/// Returns the texts at which `filter` is valid and true.
///
/// # Errors
/// `OutOfMemory` if an allocation fails.
pub fn keep_where(
    alloc: Global,
    names: &Utf8Array<i32>,
    filter: &BooleanArray,
) -> Result<Utf8Array<i32>, Error>
    requires { length filter.now.rows ≡ length names.now.rows }
    ensures ok { IfOk result (λ kept. slots_of kept ≡ where_set (asked filter.now) (slots_of names.now)) }
    ensures err { OnlyOutOfMemory result }
{
    filtered_slots::<BytesAround, Buffer<u8>>();
    filter_utf8(alloc, names, filter)
}

/// Returns the texts at these indexes.
///
/// # Errors
/// `OutOfSpec` if an index is out of bounds, `Overflow` if the texts are too long for offsets of 32 bits, and
/// `OutOfMemory` if an allocation fails.
pub fn pick(alloc: Global, names: &Utf8Array<i32>, indexes: &[i64]) -> Result<Utf8Array<i32>, Error>
    ensures ok { IfOk result (λ picked. slots_of picked ≡ at_keys (λ index. index) indexes.now (slots_of names.now)) }
    ensures out_of_bounds { MatchOption (first_out_of_bounds (λ index. index) names.now indexes.now) ⊤
        (FailsAt (λ index. index) result) }
    ensures err { IfErr result (TakeRefused max_offset (λ index. index) names.now indexes.now) }
{
    taken_slots::<BytesAround, Buffer<u8>, i64>();
    take_utf8(alloc, names, indexes)
}

/// Returns the texts of all arrays, one array after the other.
///
/// # Errors
/// `Overflow` if the texts are too long for offsets of 32 bits, and `OutOfMemory` if an allocation fails.
pub fn join(alloc: Global, arrays: &[Utf8Array<i32>]) -> Result<Utf8Array<i32>, Error>
    requires { 0 < length arrays.now }
    ensures ok { IfOk result (λ joined. slots_of joined ≡ flat_map slots_of arrays.now) }
    ensures err { IfErr result (λ e. e ≡ refused_growth (concat_overflows max_offset arrays.now)) }
{
    concatenated_slots::<BytesAround, Buffer<u8>>();
    concat_utf8(alloc, arrays)
}
