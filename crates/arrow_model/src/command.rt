//! What can be asked of a table. CONTRIBUTING.md lists what else another command changes.
use crate::item::{Change, Item, Turn};
use crate::kind::Kind;
use arrow_types::data_type::DataType;

/// Packed marks or booleans.
#[derive(Drop)]
pub struct Bits {
    /// The bytes.
    pub bytes: Vec<u8>,
    /// The number of bits.
    pub length: usize,
}

/// The raw vectors of stored values.
#[derive(Drop)]
pub enum Raw<T, O> {
    /// Native values.
    Values(Vec<T>),
    /// Booleans.
    Bits(Bits),
    /// Offsets and bytes.
    Pieces(Vec<O>, Vec<u8>),
}

/// The raw parts of an array or a builder.
#[derive(Drop)]
pub struct Parts<T, O> {
    /// The kind of array or builder that they make.
    pub kind: Kind,
    /// Its type.
    pub data_type: DataType,
    /// Its stored values.
    pub raw: Raw<T, O>,
    /// Its mask, where there is one.
    pub mask: Option<Bits>,
}

/// A command. The numbers of its entries come in the order in which its description names them.
#[derive(Drop)]
pub enum Command<T, O> {
    /// Makes an array or a builder without slots in an empty entry.
    New(usize, Kind),
    /// Makes an array of nulls in an empty entry; the last number is how many.
    NewNull(usize, Kind, DataType, usize),
    /// Makes an array or a builder of raw parts in an empty entry.
    Parts(usize, Parts<T, O>),
    /// Makes an array or a builder of slots in an empty entry.
    FromSlots(usize, Kind, Vec<Option<Item<T>>>),
    /// Makes an array or a builder of items, none of them null, in an empty entry.
    FromItems(usize, Kind, Vec<Item<T>>),
    /// The number of slots.
    Len(usize),
    /// What the slot at an index stores, also if it is null.
    Value(usize, usize),
    /// The slot of an array at an index.
    Get(usize, usize),
    /// Whether the slot of an array at an index is null.
    IsNull(usize, usize),
    /// The number of nulls of an array.
    NullCount(usize),
    /// All slots.
    Slots(usize),
    /// What the turns of a fresh iterator over the stored items give.
    Turns(usize, Vec<Turn>),
    /// The data type.
    TypeOf(usize),
    /// Whether a mask is held.
    Held(usize),
    /// All bytes, those around the slots too.
    Bytes(usize),
    /// The offsets.
    Offsets(usize),
    /// Keeps some slots of an array: the second number is the first of them, the third how many.
    Slice(usize, usize, usize),
    /// Clones the first entry into the second, which is empty.
    Clone(usize, usize),
    /// Empties an entry.
    Drop(usize),
    /// Replaces the mask.
    SetMask(usize, Option<Vec<bool>>),
    /// Changes a held mask.
    ApplyMask(usize, Change<T>),
    /// Replaces the stored values.
    SetValues(usize, Vec<Item<T>>),
    /// Changes the stored values.
    ApplyValues(usize, Change<T>),
    /// Replaces a slot.
    Set(usize, usize, Option<Item<T>>),
    /// Writes a stored value.
    Write(usize, usize, Item<T>),
    /// Appends a slot.
    Push(usize, Option<Item<T>>),
    /// Appends a null, or an empty item to a builder without nulls.
    PushNull(usize),
    /// Removes the last slot, which is the reply.
    Pop(usize),
    /// Appends slots.
    Extend(usize, Vec<Option<Item<T>>>),
    /// Appends items.
    ExtendValues(usize, Vec<Item<T>>),
    /// Appends equal slots; the second number is how many.
    ExtendConstant(usize, usize, Option<Item<T>>),
    /// Appends the rows of the second entry to the first.
    ExtendFromSelf(usize, usize),
    /// Reserves room; the second number counts slots, the third bytes.
    Reserve(usize, usize, usize),
    /// Gives back the room that is not used.
    Shrink(usize),
    /// Makes a builder an array.
    Freeze(usize),
    /// Converts an array into a builder, if that needs no copy.
    Thaw(usize),
    /// Makes a builder of values alone one with nulls.
    Nullable(usize),
    /// Replaces the data type.
    To(usize, DataType),
    /// Whether two builders with nulls have the same slots.
    Equal(usize, usize),
    /// Filters the array in the first entry by the booleans in the second, as many, into the third, which is empty.
    Filter(usize, usize, usize),
    /// Takes the rows at keys of the array in the first entry into the second, which is empty.
    Take(usize, Vec<i64>, usize),
    /// Whether keys are indexes below a length.
    CheckIndexes(Vec<i64>, usize),
}

/// A command on two tables, one of each width of offsets.
#[derive(Drop)]
pub enum BothCommand<T> {
    /// A command on the narrow table.
    Narrow(Command<T, i32>),
    /// A command on the wide table.
    Wide(Command<T, i64>),
    /// Copies the array of bytes or text in a narrow entry into an empty wide entry, over wide offsets.
    Widen(usize, usize),
    /// Copies the array of bytes or text in a wide entry into an empty narrow entry, over narrow offsets.
    NarrowTo(usize, usize),
}
