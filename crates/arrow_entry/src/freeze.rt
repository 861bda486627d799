//! Builders that become arrays, for the command `Freeze`.
ghost use Rattle.std.specs.Prelude.{◌≡◌, IfOk, IsTrue};
ghost use Rattle.arrow_types.specs.Failures.{OnlyOutOfMemory};
ghost use Rattle.arrow_bytes.specs.Column.{column_without_tail};
ghost use Rattle.arrow_column.specs.Column.{without_needless_mask};
ghost use Rattle.arrow_entry.specs.Entry.{value_of};
ghost use Rattle.arrow_model.specs.Change.{frozen_value};
ghost use Rattle.arrow_model.specs.Kind.{is_builder};

use crate::Entry;
use arrow_byte_array::{ByteArray, MutableByteArray, MutableByteValuesArray};
use arrow_bytes::ByteKind;
use arrow_types::error::Error;
use arrow_types::native_type::NativeType;
use arrow_types::offset::Offset;

/// Freezes a builder of bytes or text, which has no bytes after its items.
///
/// # Errors
/// `OutOfMemory` if an allocation fails.
fn frozen_items<K: ByteKind, O: Offset>(
    builder: MutableByteArray<K, O>,
) -> Result<ByteArray<K, O>, Error>
    ensures ok { IfOk result (λ array. array ≡ without_needless_mask (column_without_tail builder)) }
    ensures err { OnlyOutOfMemory result }
{
    // The builder says with its bytes that there are none after its items.
    builder.values();
    builder.freeze()
}

/// Freezes a builder without nulls of bytes or text, which has no bytes after its items.
///
/// # Errors
/// `OutOfMemory` if an allocation fails.
fn frozen_values<K: ByteKind, O: Offset>(
    builder: MutableByteValuesArray<K, O>,
) -> Result<ByteArray<K, O>, Error>
    ensures ok { IfOk result (λ array. array ≡ without_needless_mask (column_without_tail builder)) }
    ensures err { OnlyOutOfMemory result }
{
    // The builder says with its bytes that there are none after its items.
    builder.values();
    builder.freeze()
}

/// Freezes a builder of any kind.
///
/// # Errors
/// `OutOfMemory` if an allocation fails.
#[tactic(auto, using(crate::proofs::Seen::seen_reads, crate::proofs::Rules::seen_freezes))]
pub fn frozen<T: NativeType, O: Offset>(builder: Entry<T, O>) -> Result<Entry<T, O>, Error>
    requires { IsTrue (is_builder (value_of builder).shape) }
    ensures ok { IfOk result (λ array. value_of array ≡ frozen_value (value_of builder)) }
    ensures err { OnlyOutOfMemory result }
{
    match builder {
        Entry::MutablePrimitive(builder) => Ok(Entry::Primitive(builder.freeze()?)),
        Entry::MutableBoolean(builder) => Ok(Entry::Boolean(builder.freeze()?)),
        Entry::MutableBinary(builder) => Ok(Entry::Binary(frozen_items(builder)?)),
        Entry::MutableUtf8(builder) => Ok(Entry::Utf8(frozen_items(builder)?)),
        Entry::BinaryValues(builder) => Ok(Entry::Binary(frozen_values(builder)?)),
        Entry::Utf8Values(builder) => Ok(Entry::Utf8(frozen_values(builder)?)),
        _ => unreachable!(),
    }
}
