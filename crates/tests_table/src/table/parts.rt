//! Raw parts that no line of the program writes: bits that do not fit in their bytes or are set behind the last one,
//! and stored values of another kind. Other parts are in `examples/parts.txt`, and some of each kind also here, since a
//! command copies what the program moves.
use super::{case_text, run_text};
use arrow_table::Kind::*;
use arrow_table::{Bits, Command, Kind, Parts, Raw, Table, run};
use arrow_types::data_type::DataType;
use arrow_types::native_type::{NativeType, days_ms};
use arrow_types::offset::Offset;
use std::fmt::Debug;
use tests_support::assert_text;

/// Bytes, and the number of bits in them.
type Packed = (&'static [u8], usize);

/// Stored values of raw parts: a number of native ones, bits, or offsets and bytes.
#[derive(Clone, Copy)]
pub(crate) enum Stored {
    Values(usize),
    Bits(Packed),
    Pieces(&'static [i32], &'static [u8]),
}

/// A data type, the one of the table's width of offsets and of its native values.
#[derive(Clone, Copy)]
pub(crate) enum Type {
    Native,
    Bool,
    Bytes,
    Text,
}

/// A name, a kind, a type, a mask, stored values, and the slots that they make or why they are refused.
#[rattlefmt::skip]
type Case = (&'static str, Kind, Type, Option<Packed>, Stored, &'static str);

use Stored::{Bits as B, Pieces as P, Values as V};
use Type::{Bool, Bytes, Native, Text};
use std::process::Abort;

const BITS: &str = "refused: the bits must fit in the bytes";

const LAST: &str = "refused: the last offset must equal the values length";

pub(crate) const NOT_UTF8: &str = "refused: every text between two offsets must be UTF-8";

const MASK: &str = "refused: validity mask length must match the number of values";

const BUILDER_MASK: &str = "refused: validity's length must be equal to the number of values";

const NO_NUMBERS: &str =
    "refused: PrimitiveArray can only be initialized with a DataType whose physical type is Primitive";

/// Arrays report, in this order: faults of offsets, bits, another last offset, no text, the mask's length, the type.
/// Builders of bytes and text report the type before the mask's length.
#[rattlefmt::skip]
const CASES: &[Case] = &[
    ("prim, 9 marks in a byte", Primitive, Native, Some((&[5], 9)), V(3), BITS),
    ("prim, 2 marks, another type", Primitive, Bool, Some((&[3], 2)), V(3), MASK),
    ("prim, another type", Primitive, Bool, Some((&[7], 3)), V(3), NO_NUMBERS),
    ("prim, no number, no mark", Primitive, Native, Some((&[], 0)), V(0), "[]"),
    ("mprim, 2^64 - 1 marks in a byte", MutablePrimitive, Native, Some((&[5], usize::MAX)), V(3), BITS),
    ("mprim, 4 marks, another type", MutablePrimitive, Text, Some((&[15], 4)), V(3), MASK),
    ("mprim, marks set behind the last, another type", MutablePrimitive, Text, Some((&[15], 3)), V(3), NO_NUMBERS),
    ("bool, 9 marks in a byte, 9 bits in a byte", Boolean, Bool, Some((&[255], 9)), B((&[5], 9)), BITS),
    ("bool, 9 marks in a byte, 8 bits", Boolean, Bool, Some((&[255], 9)), B((&[5], 8)), BITS),
    ("bool, 2 marks, another type", Boolean, Native, Some((&[3], 2)), B((&[5], 3)), MASK),
    ("bool, a null", Boolean, Bool, Some((&[3], 3)), B((&[5], 3)), "[true false _]"),
    ("mbool, a bit in no byte", MutableBoolean, Bool, None, B((&[], 1)), BITS),
    ("mbool, 2 marks, another type", MutableBoolean, Native, Some((&[3], 2)), B((&[5], 3)), MASK),
    ("mbool, bits behind the last", MutableBoolean, Bool, None, B((&[255, 255], 9)),
        "[true true true true true true true true true]"),
    ("bin, no offset, 9 marks in a byte", Binary, Native, Some((&[5], 9)), P(&[], &[1]),
        "refused: offsets must have at least one element"),
    ("bin, falls from a negative offset", Binary, Native, Some((&[5], 9)), P(&[-1, -2], &[1]),
        "refused: the first offset must not be negative"),
    ("bin, offsets fall", Binary, Native, Some((&[5], 9)), P(&[0, 2, 1], &[1]), "refused: offsets must never fall"),
    ("bin, 9 marks in a byte, past the bytes", Binary, Native, Some((&[5], 9)), P(&[0, 2], &[1]), BITS),
    ("bin, past the bytes, 2 marks", Binary, Native, Some((&[5], 2)), P(&[0, 2], &[1]),
        "refused: offsets must not exceed the values length"),
    ("bin, 2 marks, another type", Binary, Native, Some((&[5], 2)), P(&[0, 1], &[1]), MASK),
    ("bin, bytes around an item", Binary, Bytes, Some((&[255], 1)), P(&[1, 3], &[9, 1, 2, 9]), "[[1, 2]]"),
    ("utf8, offsets fall, 9 marks in a byte", Utf8, Bytes, Some((&[31], 9)), P(&[0, 2, 1], b"\xC3a"),
        "refused: offsets must never fall"),
    ("utf8, 9 marks in a byte, no text", Utf8, Bytes, Some((&[31], 9)), P(&[0, 2], b"\xC3a"), BITS),
    ("utf8, no text, 5 marks", Utf8, Bytes, Some((&[31], 5)), P(&[0, 2], b"\xC3a"), NOT_UTF8),
    ("utf8, bytes around a text", Utf8, Text, Some((&[1], 1)), P(&[1, 2], b"aa\xFF"), "['a']"),
    ("mbin, no offset, 9 marks in a byte", MutableBinary, Text, Some((&[5], 9)), P(&[], &[1]),
        "refused: offsets must have at least one element"),
    ("mbin, 9 marks in a byte, another end", MutableBinary, Text, Some((&[5], 9)), P(&[0, 1], &[1, 2]), BITS),
    ("mbin, another end, another type", MutableBinary, Text, Some((&[5], 2)), P(&[0, 1], &[1, 2]), LAST),
    ("mbin, another type, 2 marks", MutableBinary, Text, Some((&[5], 2)), P(&[0, 2], &[1, 2]),
        "refused: MutableBinaryValuesArray can only be initialized with DataType::Binary or DataType::LargeBinary"),
    ("mbin, 2 marks", MutableBinary, Bytes, Some((&[5], 2)), P(&[0, 2], &[1, 2]), BUILDER_MASK),
    ("mbin, a null", MutableBinary, Bytes, Some((&[0], 1)), P(&[0, 2], &[1, 2]), "[_]"),
    ("mutf8, offsets fall, 9 marks in a byte", MutableUtf8, Bytes, Some((&[5], 9)), P(&[1, 0], b"\xFF"),
        "refused: offsets must never fall"),
    ("mutf8, 9 marks in a byte, no text", MutableUtf8, Bytes, Some((&[5], 9)), P(&[0, 1], b"\xFF"), BITS),
    ("mutf8, another end, no text", MutableUtf8, Bytes, Some((&[5], 2)), P(&[0, 1], b"\xFF\xFF"), LAST),
    ("mutf8, no text, another type", MutableUtf8, Bytes, Some((&[5], 2)), P(&[0, 1], b"\xFF"), NOT_UTF8),
    ("mutf8, another type, 2 marks", MutableUtf8, Bytes, Some((&[5], 2)), P(&[0, 1], b"a"),
        "refused: MutableUtf8ValuesArray can only be initialized with DataType::Utf8 or DataType::LargeUtf8"),
    ("mutf8, 2 marks", MutableUtf8, Text, Some((&[5], 2)), P(&[0, 1], b"a"), BUILDER_MASK),
    ("mutf8, a byte before a text", MutableUtf8, Text, Some((&[1], 1)), P(&[1, 2], b"\xFFa"), "['a']"),
    ("vbin, another end, another type", BinaryValues, Text, None, P(&[0, 1], &[1, 2]), LAST),
    ("vbin, an offset alone", BinaryValues, Bytes, None, P(&[0], &[]), "[]"),
    ("vutf8, no text, another type", Utf8Values, Bytes, None, P(&[0, 1], b"\xFF"), NOT_UTF8),
    ("vutf8, a text", Utf8Values, Text, None, P(&[0, 1], b"a"), "['a']"),
    // Stored values of another kind, and a mask for a builder without nulls, are found before other faults.
    ("prim, bits", Primitive, Native, None, B((&[1], 1)), "not met"),
    ("mprim, bytes", MutablePrimitive, Native, None, P(&[0, 1], &[1]), "not met"),
    ("bool, numbers", Boolean, Bool, None, V(1), "not met"),
    ("mbool, bytes", MutableBoolean, Bool, None, P(&[0], &[]), "not met"),
    ("bin, numbers", Binary, Bytes, None, V(1), "not met"),
    ("utf8, bits", Utf8, Text, None, B((&[1], 1)), "not met"),
    ("mbin, no numbers", MutableBinary, Bytes, None, V(0), "not met"),
    ("mutf8, a bit in no byte", MutableUtf8, Text, None, B((&[], 1)), "not met"),
    ("vbin, numbers", BinaryValues, Bytes, None, V(1), "not met"),
    ("vutf8, bits", Utf8Values, Text, None, B((&[1], 1)), "not met"),
    ("vbin, a mask", BinaryValues, Bytes, Some((&[1], 1)), P(&[0, 1], &[1]), "not met"),
    ("vutf8, 9 marks in a byte, no offset", Utf8Values, Text, Some((&[1], 9)), P(&[], b"a"), "not met"),
];

/// Creates packed bits.
fn bits(rt: &(impl Abort + AllocGlobal), packed: Packed) -> Bits {
    let bytes = packed.0.to_vec(rt.alloc()).expect(rt, "memory");
    Bits {
        bytes,
        length: packed.1,
    }
}

/// Creates raw parts. Their data type is one of a table of this width, and native values are the first of some.
pub(crate) fn parts<T: NativeType, O: Offset + From<i32>>(
    rt: &(impl Abort + AllocGlobal),
    kind: Kind,
    named: Type,
    mask: Option<Packed>,
    stored: &Stored,
    values: &[T],
) -> Parts<T, O> {
    let raw = match stored {
        Stored::Values(count) => {
            let values = values.get(..*count).expect(rt, "values");
            Raw::Values(values.to_vec(rt.alloc()).expect(rt, "memory"))
        }
        Stored::Bits(packed) => Raw::Bits(bits(rt, *packed)),
        Stored::Pieces(numbers, bytes) => {
            let mut offsets = Vec::new(rt.alloc());
            for number in *numbers {
                offsets.push(O::from(*number)).expect(rt, "memory");
            }
            Raw::Pieces(offsets, bytes.to_vec(rt.alloc()).expect(rt, "memory"))
        }
    };
    let data_type = match (named, O::IS_LARGE) {
        (Type::Native, _) => T::PRIMITIVE.default_data_type(),
        (Type::Bool, _) => DataType::Boolean,
        (Type::Bytes, false) => DataType::Binary,
        (Type::Bytes, true) => DataType::LargeBinary,
        (Type::Text, false) => DataType::Utf8,
        (Type::Text, true) => DataType::LargeUtf8,
    };
    let mask = match mask {
        Some(packed) => Some(bits(rt, packed)),
        None => None,
    };
    Parts {
        kind,
        data_type,
        raw,
        mask,
    }
}

/// Compares the slots of what parts make, or why they are refused and leave the entry empty.
fn check<T: NativeType + Debug, O: Offset + From<i32>>(
    rt: &(impl Abort + AllocGlobal),
    values: &[T],
) {
    for (row, (case, kind, named, mask, stored, expected)) in CASES.iter().enumerate() {
        let mut table = Table::<T, O>::new(rt.alloc(), 1).expect(rt, "memory");
        let parts = parts(rt, *kind, *named, *mask, stored, values);
        let mut commands = Vec::new(rt.alloc());
        commands.push(Command::Parts(0, parts)).expect(rt, "memory");
        commands.push(Command::Slots(0)).expect(rt, "memory");
        let mut replies = Vec::new(rt.alloc());
        let done = run(&mut table, commands.as_slice(), &mut replies);
        drop(commands);
        table.discard();
        let came = run_text(done, &replies);
        drop(replies);
        let (first, second) = match expected.starts_with("[") {
            true => ("ok", *expected),
            false => (*expected, "not met"),
        };
        let expected = tests_support::Text::of(format_args!("2: {first}, {second}"));
        let case = case_text::<T, O>(*case, row);
        assert_text::text(came, expected.as_str()).expect(rt, case.as_str());
    }
}

#[test]
fn faults_of_parts_are_reported_in_order(rt: HostRuntime) {
    check::<i64, i32>(&rt, &[1, 2, 3]);
    check::<days_ms, i64>(&rt, &[days_ms(1, 2), days_ms(3, 4), days_ms(5, 6)]);
}
