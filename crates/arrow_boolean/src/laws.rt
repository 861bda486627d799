//! Laws of boolean arrays and builders, stated over the definitions for all values. Each is
//! the contract of a function with an empty body.
ghost use Rattle.std.specs.Prelude.{◌≡◌, Bool};
ghost use Rattle.arrow_types.specs.Types.{IsRightType};
ghost use Rattle.arrow_types.specs.declared.physical_type.PhysicalType.TheVariants.{Boolean};
ghost use Rattle.arrow_column.specs.Validation.{Passes, own_tests};
ghost use Rattle.arrow_column.specs.Column.{Column, IsColumn, column_of_parts, mask_of, stored_values};
ghost use Rattle.arrow_boolean.specs.Fits.{boolean_array_tests, boolean_builder_tests};

/// The parts of an array or a builder, which `into_inner` returns, pass the tests of `try_new` and
/// make the same value again.
pub fn parts_again()
    ensures array { (c : Column Bool) → IsRightType Boolean c.data_type
        → Passes (own_tests boolean_array_tests c) }
    ensures builder { (c : Column Bool) → IsRightType Boolean c.data_type
        → Passes (own_tests boolean_builder_tests c) }
    ensures same { (c : Column Bool) → IsColumn c
        → column_of_parts c.data_type (stored_values c) (mask_of c) ≡ c }
{}
