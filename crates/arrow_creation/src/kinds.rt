//! What is known of a kind: whether it is an array's, and in which builder its values are made.
ghost use Rattle.std.specs.Prelude.{◌≡◌};
ghost use Rattle.arrow_creation.specs.Outcome.{builder_shape};
ghost use Rattle.arrow_model.specs.Kind.{is_frozen, is_values_alone, shape};

use arrow_model::Kind;

/// Returns whether a kind is an array's.
pub fn is_array(kind: Kind) -> bool
    ensures { result ≡ is_frozen (shape kind) }
{
    matches!(
        kind,
        Kind::Primitive | Kind::Boolean | Kind::Binary | Kind::Utf8
    )
}

/// Returns whether a kind is that of a builder of values alone.
pub fn holds_values_alone(kind: Kind) -> bool
    ensures { result ≡ is_values_alone (shape kind) }
{
    matches!(kind, Kind::BinaryValues | Kind::Utf8Values)
}

/// Returns the kind of builder in which the values of a kind are made.
pub fn builder_kind(kind: Kind) -> Kind
    ensures { shape result ≡ builder_shape (shape kind) }
{
    match kind {
        Kind::Primitive => Kind::MutablePrimitive,
        Kind::Boolean => Kind::MutableBoolean,
        Kind::Binary => Kind::MutableBinary,
        Kind::Utf8 => Kind::MutableUtf8,
        other => other,
    }
}
