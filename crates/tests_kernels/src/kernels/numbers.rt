//! Kernels of numbers. All arrays are of dates, which each kernel keeps.
use crate::arrays::{
    Booleans, NEGATIVE, TOO_GREAT, check_mask, check_value, row, stored_booleans, stored_numbers,
};
use arrow_kernels::{concat_primitive, filter_primitive, take_primitive};
use arrow_primitive::PrimitiveArray;
use arrow_types::data_type::DataType;
use arrow_types::error::Error;
use std::process::Abort;

/// Stored values and marks.
type Numbers = (&'static [i64], &'static str);

/// Compares an answer with an error, or with the parts of an array of dates.
fn check_stored(
    rt: &impl Abort,
    row: &str,
    answer: Result<PrimitiveArray<i64>, Error>,
    expected: Result<Numbers, Error>,
) {
    let (values, mask) = match expected {
        Ok(parts) => parts,
        Err(error) => return check_value(rt, row, answer.err(), Some(error)),
    };
    let array = answer.expect(rt, row);
    check_value(rt, row, array.values().as_slice(), values);
    check_mask(rt, row, array.validity(), mask);
    check_value(rt, row, array.data_type(), &DataType::Date64);
    drop(array);
}

/// One, a null that stores zero, and ten.
const THREE: Numbers = (&[1, 0, 10], "101");

/// A name, an array, a filter, whose nulls store true, and the slots that it keeps.
#[rattlefmt::skip]
const FILTERS: &[(&str, Numbers, Booleans, Numbers)] = &[
    ("a null", THREE, ("111", "101"), (&[1, 10], "none")),
    ("a needless mask", THREE, ("011", "111"), (&[0, 10], "01")),
    ("no mask", THREE, ("110", "none"), (&[1, 0], "10")),
    ("no slot", THREE, ("000", "none"), (&[], "none")),
    ("every slot", THREE, ("111", "none"), THREE),
    ("a null, of an array without a mask", (&[1, 2], "none"), ("11", "10"), (&[1], "none")),
    ("every slot, of an array with a needless mask", (&[1, 2], "11"), ("11", "none"), (&[1, 2], "none")),
];

/// A name, keys, and the slots of `THREE` at them.
const TAKES: &[(&str, &[i64], Result<Numbers, Error>)] = &[
    ("a null twice", &[2, 1, 1], Ok((&[10, 0, 0], "100"))),
    ("no null", &[2, 2], Ok((&[10, 10], "none"))),
    ("no key", &[], Ok((&[], "none"))),
    ("the length", &[3], Err(TOO_GREAT)),
    ("negative, then too great", &[0, -1, 9], Err(NEGATIVE)),
    ("too great, then negative", &[0, 9, -1], Err(TOO_GREAT)),
];

/// Eleven numbers, the third and the tenth of which are null.
const ELEVEN: Numbers = (&[0, 1, 2, 3, 4, 5, 6, 7, 8, 9, 10], "11011111101");

/// An array, and the offset and length of a slice of it.
type Slice = (Numbers, usize, usize);

/// A name, slices, and their concatenation.
#[rattlefmt::skip]
const CONCATENATIONS: &[(&str, &[Slice], Numbers)] = &[
    ("one array", &[(THREE, 0, 3)], THREE),
    ("a mask in the first", &[(THREE, 1, 2), ((&[5, 6], "none"), 0, 2)], (&[0, 10, 5, 6], "0111")),
    ("no null in slices", &[(THREE, 2, 1), (THREE, 0, 1)], (&[10, 1], "none")),
    ("no slot in the first", &[(THREE, 3, 0), ((&[5, 6], "11"), 1, 1)], (&[6], "none")),
    ("no slot", &[(THREE, 3, 0), (THREE, 0, 0)], (&[], "none")),
    (
        "marks that begin within a byte",
        &[(ELEVEN, 3, 8), ((&[20, 21, 22], "none"), 1, 2), (ELEVEN, 1, 10)],
        (&[3, 4, 5, 6, 7, 8, 9, 10, 21, 22, 1, 2, 3, 4, 5, 6, 7, 8, 9, 10], "11111101111011111101"),
    ),
];

#[test]
fn numbers_are_filtered_taken_and_concatenated(rt: HostRuntime) {
    let alloc = rt.alloc();
    for (index, (case, (values, mask), filter, expected)) in FILTERS.iter().enumerate() {
        let row = row("filters keep slots at true", "Date64", index, *case);
        let array = stored_numbers(&rt, DataType::Date64, *values, *mask);
        let filter = stored_booleans(&rt, *filter);
        assert!(rt; filter.len() == array.len());
        check_stored(
            &rt,
            row.as_str(),
            filter_primitive(alloc, &array, &filter),
            Ok(*expected),
        );
        drop((filter, array));
    }
    let array = stored_numbers(&rt, DataType::Date64, THREE.0, THREE.1);
    for (index, (case, keys, expected)) in TAKES.iter().enumerate() {
        check_stored(
            &rt,
            row("takes keep slots at keys", "Date64", index, *case).as_str(),
            take_primitive(alloc, &array, *keys),
            *expected,
        );
    }
    drop(array);
    for (index, (case, slices, expected)) in CONCATENATIONS.iter().enumerate() {
        let row = row(
            "concatenations have all slots in order",
            "Date64",
            index,
            *case,
        );
        let mut arrays = Vec::new(alloc);
        for ((values, mask), offset, len) in *slices {
            let array = stored_numbers(&rt, DataType::Date64, *values, *mask);
            assert!(rt; *offset <= array.len() && *len <= array.len() - *offset);
            arrays
                .push(array.sliced(*offset, *len))
                .expect(&rt, "memory");
        }
        assert!(rt; !arrays.is_empty());
        check_stored(
            &rt,
            row.as_str(),
            concat_primitive(alloc, &arrays),
            Ok(*expected),
        );
        drop(arrays);
    }
}
