//! How arrays are read: what slots store, also null ones.
use crate::integers::Integer;
use dethrugn::array::{
    BinaryArray, BooleanArray, MutableBinaryArray, MutableBooleanArray, MutablePrimitiveArray,
    MutableUtf8Array, PrimitiveArray, Utf8Array,
};
use dethrugn::error::Error;
use dethrugn::offset::Offset;
use dethrugn::types::{NativeType, days_ms, i256, months_days_ns};
use std::alloc::Global;
use std::fmt::Debug;
use std::str::FromStr;

/// A native value that can be read.
pub trait Value: NativeType + Debug + Drop {
    /// Reads a value; what is not one is zero.
    fn read(text: &str) -> Self;
}

/// Reads a number; what is not one is zero.
fn number<T: FromStr + Default + Drop>(text: Option<&str>) -> T
where
    T::Err: Drop,
{
    text.unwrap_or("").parse().unwrap_or(T::default())
}

impl<T: Integer> Value for T {
    fn read(text: &str) -> Self {
        T::wrap_number(number(Some(text)))
    }
}

impl Value for days_ms {
    fn read(text: &str) -> Self {
        let mut parts = text.split(':');
        let days = number(parts.next());
        days_ms(days, number(parts.next()))
    }
}

impl Value for months_days_ns {
    fn read(text: &str) -> Self {
        let mut parts = text.split(':');
        let months = number(parts.next());
        let days = number(parts.next());
        months_days_ns(months, days, number(parts.next()))
    }
}

impl Value for i256 {
    fn read(text: &str) -> Self {
        let mut parts = text.split(':');
        let high = number(parts.next());
        i256(high, number(parts.next()))
    }
}

/// Returns what a slot stores.
fn stored_value(slot: &str) -> &str {
    slot.strip_prefix('_').unwrap_or(slot)
}

/// Returns the text that a slot stores.
fn stored_text(slot: &str) -> &str {
    stored_value(slot).strip_prefix('\'').unwrap_or("")
}

/// Reads native values.
pub fn numbers<T: Value>(alloc: Global, slots: &str) -> Result<PrimitiveArray<T>, Error> {
    let mut builder = MutablePrimitiveArray::new(alloc);
    for slot in slots.split(',') {
        if !slot.is_empty() {
            builder.push(Some(T::read(stored_value(slot))))?;
        }
    }
    builder.freeze()
}

/// Reads booleans.
pub fn booleans(alloc: Global, slots: &str) -> Result<BooleanArray, Error> {
    let mut builder = MutableBooleanArray::new(alloc);
    for slot in slots.split(',') {
        if !slot.is_empty() {
            builder.push(Some(stored_value(slot) == "true"))?;
        }
    }
    builder.freeze()
}

/// Fills `item` with the bytes whose numbers those of the characters are, at most 255.
fn read_item(item: &mut Vec<u8>, text: &str) -> Result<(), Error> {
    item.clear();
    for c in text.chars() {
        item.push(u8::try_from(u32::from(c)).unwrap_or(0))?;
    }
    Ok(())
}

/// Reads bytes.
pub fn bytes<O: Offset>(alloc: Global, slots: &str) -> Result<BinaryArray<O>, Error> {
    let mut builder = MutableBinaryArray::new(alloc)?;
    let mut item = Vec::new(alloc);
    for slot in slots.split(',') {
        if !slot.is_empty() {
            read_item(&mut item, stored_text(slot))?;
            builder.push(Some(item.as_slice()))?;
        }
    }
    builder.freeze()
}

/// Reads texts.
pub fn texts<O: Offset>(alloc: Global, slots: &str) -> Result<Utf8Array<O>, Error> {
    let mut builder = MutableUtf8Array::new(alloc)?;
    for slot in slots.split(',') {
        if !slot.is_empty() {
            builder.push(Some(stored_text(slot)))?;
        }
    }
    builder.freeze()
}
