//! A kernel with its operands.
use crate::kind::Kind;
use crate::line::Line;
use dethrugn::array::{BooleanArray, PrimitiveArray};
use dethrugn::bitmap::{Bitmap, MutableBitmap};
use dethrugn::error::Error;
use std::alloc::Global;
use std::fmt::Debug;
use std::io;

/// A kernel with its operands.
#[derive(Drop)]
pub struct Case<'a, A: Kind> {
    /// Where memory comes from, and answers go to.
    pub rt: &'a HostRuntime,
    /// The name of the kernel.
    pub kernel: &'a str,
    /// The first operand.
    pub lhs: A,
    /// The second operand.
    pub rhs: A,
    /// A filter or a predicate.
    pub mask: BooleanArray,
    /// Indexes for a take. The first is the limit of a sort.
    pub keys: PrimitiveArray<i64>,
}

/// Returns which slots are valid, or `None` if all are.
fn read_mask(alloc: Global, slots: &str) -> Result<Option<Bitmap>, Error> {
    let mut mask = MutableBitmap::new(alloc);
    for slot in slots.split(',') {
        if !slot.is_empty() {
            mask.push(!slot.starts_with('_'))?;
        }
    }
    if mask.unset_bits() == 0 {
        return Ok(None);
    }
    Ok(Some(mask.freeze()?))
}

/// Reads an array.
fn read_array<A: Kind>(alloc: Global, word: &str) -> Result<A, Error> {
    let mut parts = word.split('|');
    let slots = parts.next().unwrap_or("");
    let offset = parts.next().unwrap_or("").parse().unwrap_or(0);
    let length = parts.next().unwrap_or("").parse().unwrap_or(usize::MAX);
    let mask = read_mask(alloc, slots)?;
    Ok(A::read(alloc, slots)?.cut(mask, offset, length))
}

impl<'a, A: Kind> Case<'a, A> {
    /// Reads the operands of a line.
    ///
    /// # Errors
    /// `OutOfMemory` if an allocation fails.
    pub fn read(rt: &'a HostRuntime, line: &Line<'a>) -> Result<Self, Error> {
        let alloc = rt.alloc();
        Ok(Case {
            rt,
            kernel: line.kernel,
            lhs: read_array(alloc, line.lhs)?,
            rhs: read_array(alloc, line.rhs)?,
            mask: read_array(alloc, line.mask)?,
            keys: read_array(alloc, line.keys)?,
        })
    }

    /// Prints what a call returned.
    pub fn show<T: Debug + Drop>(&self, answer: Result<T, Error>) -> io::Result<()> {
        match answer {
            Ok(value) => println!(self.rt; "{value:?}"),
            Err(error) => println!(self.rt; "error: {error}"),
        }
    }

    /// Prints that the kernel can't be run.
    pub fn refuse(&self) -> io::Result<()> {
        println!(self.rt; "kernel '{}' does not take these operands", self.kernel)
    }
}
