//! Laws of arrays and builders of bytes and of text, stated over the definitions for all values.
//! Each is the contract of a function with an empty body.
ghost use Rattle.std.specs.Prelude.{◌≡◌, ◌≤◌, Bool, [], None, length};
ghost use Rattle.arrow_types.specs.Types.{Refusal};
ghost use Rattle.arrow_types.specs.declared.physical_type.PhysicalType.{PhysicalType};
ghost use Rattle.arrow_memory.specs.Offsets.{last_of};
ghost use Rattle.arrow_memory.specs.Rows.{FitsMask};
ghost use Rattle.arrow_column.specs.Column.{IsColumn, mask_of, stored_values};
ghost use Rattle.arrow_check.specs.Pieces.{items_of};
ghost use Rattle.arrow_bytes.specs.Column.{ByteColumn, byte_column, bytes_held, offsets_held};
ghost use Rattle.arrow_bytes.specs.Validation.{PassesAsArray, PassesAsBuilder, PassesAsValuesBuilder};

/// The offsets of an array lie within its bytes, its slots' items are those between them, and its mask
/// has a mark for each: so the parts of an array, which `into_inner` returns, pass the tests of
/// `try_new`, and they make the same array again.
pub fn array_again()
    ensures within { (c : ByteColumn) → last_of (offsets_held c) ≤ length (bytes_held c) }
    ensures items { (c : ByteColumn) → items_of (offsets_held c) (bytes_held c) ≡ stored_values c }
    ensures mask { (c : ByteColumn) → FitsMask (stored_values c) (mask_of c) }
    ensures accepted { (text : Bool) (layout : PhysicalType) (wrong : Refusal) (c : ByteColumn)
        → PassesAsArray text layout wrong c }
    ensures same { (c : ByteColumn) → IsColumn c
        → byte_column c.data_type (offsets_held c) (bytes_held c) (mask_of c) ≡ c }
{}

/// The offsets of a builder, after whose last slot no byte lies, end where its bytes do: so its parts
/// pass the tests of `try_new`, and they make the same builder again.
pub fn builder_again()
    ensures end { (c : ByteColumn) → c.around.tail ≡ []
        → last_of (offsets_held c) ≡ length (bytes_held c) }
    ensures accepted { (text : Bool) (layout : PhysicalType) (wrong : Refusal) (c : ByteColumn)
        → PassesAsBuilder text layout wrong c }
    ensures same { (c : ByteColumn) → IsColumn c
        → byte_column c.data_type (offsets_held c) (bytes_held c) (mask_of c) ≡ c }
{}

/// The parts of a builder without nulls, after whose last item no byte lies, pass the tests of
/// `try_new` and make the same builder again.
pub fn values_builder_again()
    ensures accepted { (text : Bool) (layout : PhysicalType) (wrong : Refusal) (c : ByteColumn)
        → PassesAsValuesBuilder text layout wrong c }
    ensures same { (c : ByteColumn) → IsColumn c → mask_of c ≡ None
        → byte_column c.data_type (offsets_held c) (bytes_held c) None ≡ c }
{}
