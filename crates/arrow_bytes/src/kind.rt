//! Kinds of items: what arrays of bytes and arrays of text differ in.
ghost use Rattle.std.specs.Prelude.{◌≡◌, ◌≤◌, List, ℕ, Bool, length, OnOk, IfOk, IfErr};
ghost use Rattle.arrow_types.specs.Failures.{OnlyOutOfMemory};
ghost use Rattle.arrow_types.specs.Types.{LogicalType, Refusal, logical_type, refusal, IsRightType};
ghost use Rattle.arrow_types.specs.declared.physical_type.PhysicalType.{PhysicalType};
ghost use Rattle.arrow_memory.specs.Offsets.{last_of, numbers_of, KeepsOffsets};
ghost use Rattle.arrow_check.specs.Pieces.{items_of};
ghost use Rattle.arrow_check.specs.Texts.{not_text};
ghost use Rattle.arrow_bytes.specs.Kinds.{AreItems, Costs, IsItem, TestsOnce};

use arrow_check::cost::TextCost;
use arrow_types::data_type::DataType;
use arrow_types::error::Error;
use arrow_types::offset::Offset;
use arrow_types::physical_type::PhysicalType;
use std::alloc::Global;

/// A kind of items: `Binary`, of which any bytes are an item, or `Utf8`, whose items are text. What
/// arrays and builders of both have in common is written once, over the kind.
pub trait ByteKind {
    /// An owned item.
    type Owned: Drop;

    /// Whether an item must be text; otherwise any bytes are one.
    ghost is_text: { Bool };

    /// The bytes of an owned item.
    ghost owned: { Self.Owned → List ℕ };

    /// The physical type of arrays and builders, for large offsets or others.
    ghost layout: { Bool → PhysicalType };

    /// The default data type of arrays and builders, for large offsets or others.
    ghost default_type: { Bool → LogicalType };

    /// The error about an array's data type of another physical type.
    ghost wrong_type: { Refusal };

    /// The error about a builder's data type of another physical type.
    ghost wrong_builder_type: { Refusal };

    /// Returns the physical type of arrays and builders, for large offsets or others.
    fn layout(is_large: bool) -> PhysicalType
        ensures { result ≡ layout is_large };

    /// Returns the default data type of arrays and builders, for large offsets or others.
    fn default_type(is_large: bool) -> DataType
        ensures value { logical_type result ≡ default_type is_large }
        ensures right { IsRightType (layout is_large) (logical_type result) };

    /// Returns the error about an array's data type of another physical type.
    fn wrong_type() -> Error
        ensures { refusal result ≡ wrong_type };

    /// Returns the error about a builder's data type of another physical type.
    fn wrong_builder_type() -> Error
        ensures { refusal result ≡ wrong_builder_type };

    /// Checks that what lies between legal offsets is items of the kind. The offsets must lie in
    /// the bytes. Adds the cost of the test to the counts.
    ///
    /// # Errors
    /// `OutOfSpec` if one is not; the counts rise then too.
    fn check_items<O: Offset>(offsets: &[O], bytes: &[u8], cost: &mut TextCost) -> Result<(), Error>
        requires keeps { KeepsOffsets O.number O.most offsets.now }
        requires within { last_of (numbers_of O.number offsets.now) ≤ length bytes.now }
        ensures ok { OnOk result (AreItems is_text (items_of (numbers_of O.number offsets.now) bytes.now)) }
        ensures err { IfErr result (λ e. (¬ AreItems is_text (items_of (numbers_of O.number offsets.now) bytes.now))
            × (refusal e ≡ not_text)) }
        ensures counted { TestsOnce (numbers_of O.number offsets.now) bytes.now cost.old cost.new }
        ensures exact { Costs is_text (numbers_of O.number offsets.now) bytes.now cost.old cost.new };

    /// Returns a copy of an item.
    ///
    /// # Errors
    /// `OutOfMemory` if an allocation fails.
    fn copy_item(alloc: Global, bytes: &[u8]) -> Result<Self::Owned, Error>
        requires { IsItem is_text bytes.now }
        ensures ok { IfOk result (λ item. owned item ≡ bytes.now) }
        ensures err { OnlyOutOfMemory result };
}

/// A borrowed item of a kind.
pub trait ByteItem<K: ByteKind>: Copy {
    /// The bytes of the item.
    ghost bytes: { Self → List ℕ };

    /// Returns the bytes of the item.
    fn bytes(&self) -> &[u8]
        ensures value { result.now ≡ bytes self.now }
        ensures item { IsItem K.is_text result.now };
}

/// A kind whose items can be borrowed for `'a`. What arrays and builders of both kinds lend and take
/// is written once, over this trait.
pub trait BorrowItem<'a>: ByteKind {
    /// A borrowed item: `&'a [u8]` or `&'a str`.
    type Borrowed: ByteItem<Self> + 'a;

    /// Returns bytes that are an item of the kind as one. They are not tested.
    fn borrow_item(bytes: &'a [u8]) -> Self::Borrowed
        requires { IsItem Self.is_text bytes.now }
        ensures { Self.Borrowed.bytes result ≡ bytes.now };
}

/// An item that names the error of calls that take such items from an iterator, which is `Error`.
/// They name it by the item because the borrow checker takes no iterator with two lifetimes, such
/// as `slots.iter().copied()` over borrowed items, where a signature names the `'static` text of
/// `Error`.
pub trait ItemError {
    ghost use Rattle.arrow_types.specs.declared.error.Error.{Error};

    /// The type of the error: `Error` for each item of this library.
    type Error: Drop;

    /// The error as an `Error`.
    ghost error: { Self.Error → Error };

    /// Returns an `Error` as this type.
    fn from_error(refused: Error) -> Self::Error
        ensures { error result ≡ refused };
}
