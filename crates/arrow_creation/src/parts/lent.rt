//! Borrowed raw parts: whether they fit their kind, and their copies.
ghost use Rattle.std.specs.Prelude.{◌≡◌, IfOk, None, false, option_map, true};
ghost use Rattle.arrow_types.specs.Types.{out_of_memory};
ghost use Rattle.arrow_creation.specs.Outcome.{MakesParts, parts_fit};
ghost use Rattle.arrow_model.specs.Answer.{not_met, refused};
ghost use Rattle.arrow_model.specs.Request.{given_by, packed_bits, source_of};

use arrow_model::{Bits, Kind, Parts, Raw};
use arrow_types::native_type::NativeType;
use arrow_types::offset::Offset;
use std::alloc::AllocError;

/// Copies a vector.
///
/// # Errors
/// `AllocError` if the allocation fails.
fn vector_copied<X: Copy>(items: &Vec<X>) -> Result<Vec<X>, AllocError>
    ensures { IfOk result (λ copy. copy.items ≡ items.now.items) }
{
    Vec::from_slice(*items.allocator(), items)
}

/// Copies packed bits.
///
/// # Errors
/// `AllocError` if the allocation fails.
fn bits_copied(bits: &Bits) -> Result<Bits, AllocError>
    ensures { IfOk result (λ copy. packed_bits copy ≡ packed_bits bits.now) }
{
    let bytes = vector_copied(&bits.bytes)?;
    Ok(Bits {
        bytes,
        length: bits.length,
    })
}

/// Copies a mask.
///
/// # Errors
/// `AllocError` if the allocation fails.
fn mask_copied(mask: &Option<Bits>) -> Result<Option<Bits>, AllocError>
    ensures { IfOk result (λ copy. option_map packed_bits copy ≡ option_map packed_bits mask.now) }
{
    match mask {
        Some(bits) => Ok(Some(bits_copied(bits)?)),
        None => Ok(None),
    }
}

/// Copies raw stored values.
///
/// # Errors
/// `AllocError` if an allocation fails.
fn raw_copied<T: NativeType, O: Offset>(raw: &Raw<T, O>) -> Result<Raw<T, O>, AllocError>
    ensures { IfOk result (λ copy. given_by O.number copy ≡ given_by O.number raw.now) }
{
    match raw {
        Raw::Values(values) => Ok(Raw::Values(vector_copied(values)?)),
        Raw::Bits(bits) => Ok(Raw::Bits(bits_copied(bits)?)),
        Raw::Pieces(offsets, bytes) => {
            let offsets = vector_copied(offsets)?;
            let bytes = vector_copied(bytes)?;
            Ok(Raw::Pieces(offsets, bytes))
        }
    }
}

/// Adds a copy of the rest of raw parts to raw stored values.
///
/// # Errors
/// `AllocError` if an allocation fails.
fn with_rest<T: NativeType, O: Offset>(
    raw: Raw<T, O>,
    given: &Parts<T, O>,
) -> Result<Parts<T, O>, AllocError>
    ensures kind { IfOk result (λ copy. copy.kind ≡ given.now.kind) }
    ensures source { IfOk result (λ copy. source_of O.number copy
        ≡ source_of O.number (record given.now { raw = raw })) }
{
    let data_type = given.data_type.clone()?;
    let mask = mask_copied(&given.mask)?;
    Ok(Parts {
        kind: given.kind,
        data_type,
        raw,
        mask,
    })
}

/// Copies raw parts.
///
/// # Errors
/// `AllocError` if an allocation fails.
pub fn parts_copied<T: NativeType, O: Offset>(
    given: &Parts<T, O>,
) -> Result<Parts<T, O>, AllocError>
    ensures kind { IfOk result (λ copy. copy.kind ≡ given.now.kind) }
    ensures source { IfOk result (λ copy. source_of O.number copy ≡ source_of O.number given.now) }
{
    let raw = raw_copied(&given.raw)?;
    with_rest(raw, given)
}

/// Returns whether raw parts fit their kind: the raw values are of its value kind, and a builder without nulls has no
/// mask. If they don't, the command's condition fails; otherwise an allocation may fail.
pub fn fits_kind<T: NativeType, O: Offset>(given: &Parts<T, O>) -> bool
    ensures fits { result ≡ parts_fit O.number given.now }
    ensures not { result ≡ false → MakesParts T.NativeType O.Offset given.now not_met None }
    ensures met { result ≡ true → MakesParts T.NativeType O.Offset given.now (refused out_of_memory) None }
{
    match &given.raw {
        Raw::Values(_) => matches!(given.kind, Kind::Primitive | Kind::MutablePrimitive),
        Raw::Bits(_) => matches!(given.kind, Kind::Boolean | Kind::MutableBoolean),
        Raw::Pieces(_, _) => match given.kind {
            Kind::Binary | Kind::Utf8 | Kind::MutableBinary | Kind::MutableUtf8 => true,
            Kind::BinaryValues | Kind::Utf8Values => given.mask.is_none(),
            _ => false,
        },
    }
}
