//! The words of a line, and the type that it names.
use crate::any::run_any;
use crate::case::Case;
use crate::integers::{Integer, run_integers};
use crate::items::{Width, run_bytes, run_texts};
use crate::kind::Kind;
use crate::logic::run_logic;
use dethrugn::array::{BinaryArray, BooleanArray, PrimitiveArray, Utf8Array};
use dethrugn::types::{NativeType, days_ms, i256, months_days_ns};
use std::io;

/// The words of a line.
#[derive(Drop)]
pub struct Line<'a> {
    /// The name of the kernel.
    pub kernel: &'a str,
    /// The type of both operands.
    pub kind: &'a str,
    /// The first operand.
    pub lhs: &'a str,
    /// The second operand, without one the first.
    pub rhs: &'a str,
    /// Booleans, if any.
    pub mask: &'a str,
    /// Indexes, if any.
    pub keys: &'a str,
}

impl<'a> Line<'a> {
    /// Splits a line into its words.
    pub fn read(text: &'a str) -> Self {
        let mut words = text.split(' ');
        let kernel = words.next().unwrap_or("");
        let kind = words.next().unwrap_or("");
        let lhs = words.next().unwrap_or("");
        Line {
            kernel,
            kind,
            lhs,
            rhs: words.next().unwrap_or(lhs),
            mask: words.next().unwrap_or(""),
            keys: words.next().unwrap_or(""),
        }
    }
}

/// An array that a line can name the type of.
trait LineKind: Kind {
    /// Runs a kernel.
    fn run(case: &Case<'_, Self>) -> io::Result<()>;
}

/// Returns the value of the first slot, or zero if it is null or there is none.
fn first<T: NativeType>(array: &PrimitiveArray<T>) -> T {
    let slot = if array.is_empty() { None } else { array.get(0) };
    slot.unwrap_or(T::default())
}

impl<T: Integer> LineKind for PrimitiveArray<T> {
    fn run(case: &Case<'_, Self>) -> io::Result<()> {
        run_integers(case, first(&case.rhs))
    }
}

impl LineKind for PrimitiveArray<days_ms> {
    fn run(case: &Case<'_, Self>) -> io::Result<()> {
        run_any(case, first(&case.rhs))
    }
}

impl LineKind for PrimitiveArray<months_days_ns> {
    fn run(case: &Case<'_, Self>) -> io::Result<()> {
        run_any(case, first(&case.rhs))
    }
}

impl LineKind for PrimitiveArray<i256> {
    fn run(case: &Case<'_, Self>) -> io::Result<()> {
        run_any(case, first(&case.rhs))
    }
}

impl LineKind for BooleanArray {
    fn run(case: &Case<'_, Self>) -> io::Result<()> {
        run_logic(case)
    }
}

impl<O: Width> LineKind for BinaryArray<O> {
    fn run(case: &Case<'_, Self>) -> io::Result<()> {
        run_bytes(case)
    }
}

impl<O: Width> LineKind for Utf8Array<O> {
    fn run(case: &Case<'_, Self>) -> io::Result<()> {
        run_texts(case)
    }
}

/// Runs the kernel of a line on arrays of a type.
fn run<A: LineKind>(rt: &HostRuntime, line: &Line<'_>) -> anyhow::Result<()> {
    let case = Case::<A>::read(rt, line)?;
    A::run(&case)?;
    Ok(())
}

/// Runs the kernel of a line, and prints what it returns.
pub fn answer(rt: &HostRuntime, line: &Line<'_>) -> anyhow::Result<()> {
    match line.kind {
        "i8" => run::<PrimitiveArray<i8>>(rt, line),
        "i16" => run::<PrimitiveArray<i16>>(rt, line),
        "i32" => run::<PrimitiveArray<i32>>(rt, line),
        "i64" => run::<PrimitiveArray<i64>>(rt, line),
        "i128" => run::<PrimitiveArray<i128>>(rt, line),
        "u8" => run::<PrimitiveArray<u8>>(rt, line),
        "u16" => run::<PrimitiveArray<u16>>(rt, line),
        "u32" => run::<PrimitiveArray<u32>>(rt, line),
        "u64" => run::<PrimitiveArray<u64>>(rt, line),
        "i256" => run::<PrimitiveArray<i256>>(rt, line),
        "days_ms" => run::<PrimitiveArray<days_ms>>(rt, line),
        "months_days_ns" => run::<PrimitiveArray<months_days_ns>>(rt, line),
        "bool" => run::<BooleanArray>(rt, line),
        "binary" => run::<BinaryArray<i32>>(rt, line),
        "large_binary" => run::<BinaryArray<i64>>(rt, line),
        "utf8" => run::<Utf8Array<i32>>(rt, line),
        "large_utf8" => run::<Utf8Array<i64>>(rt, line),
        kind => {
            println!(rt; "unknown type '{kind}'")?;
            Ok(())
        }
    }
}
