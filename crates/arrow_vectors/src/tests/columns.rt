//! Numbers and booleans: what slots and raw parts become, and what slices, clones and thawed arrays are.
use super::*;

type Numbers = PrimitiveArray<i32>;

#[test]
fn a_null_stores_zero_or_false_under_a_clear_mark_and_new_null_holds_a_mask(rt: HostRuntime) {
    macro_rules! check_slots {
        ($array:ident, $slots:ident, $values:expr, $data_type:ident) => {
            assert!(rt; $array.len() == 3);
            let values = [$array.value(0), $array.value(1), $array.value(2)];
            let slots = [$array.get(0), $array.get(1), $array.get(2)];
            let case = concat!("value and get of ", stringify!($data_type));
            assert_text::value((values, slots), ($values, $slots)).expect(&rt, case);
            let marks = ($array.is_null(0), $array.is_null(1), $array.is_valid(2));
            let came = (marks, $array.null_count());
            let case = concat!("is_null, is_valid, null_count of ", stringify!($data_type));
            assert_text::value(came, ((false, true, true), 1)).expect(&rt, case);
            let data_type = Text::of(format_args!("{:?}", $array.data_type()));
            assert_text::text(data_type, stringify!($data_type)).expect(&rt, "data_type");
        };
    }
    let slots = [Some(1), None, Some(10)];
    let numbers = Numbers::from(rt.alloc(), slots.as_slice()).expect(&rt, "memory");
    check_slots!(numbers, slots, [1, 0, 10], Int32);
    check_numbers(&rt, "numbers", Ok(numbers), &[1, 0, 10], "101");
    let slots = [Some(true), None, Some(false)];
    let booleans = BooleanArray::from(rt.alloc(), slots.as_slice()).expect(&rt, "memory");
    check_slots!(booleans, slots, [true, false, false], Boolean);
    check_booleans(&rt, "booleans", Ok(booleans), "100", "101");
    let array = Numbers::new_null(rt.alloc(), DataType::Int32, 0);
    check_numbers(&rt, "new_null of no slot", array, &[], "");
    let array = Numbers::new_null(rt.alloc(), DataType::Int32, 3);
    check_numbers(&rt, "new_null of three slots", array, &[0, 0, 0], "000");
}

/// A name, three slots, and the byte of their marks.
const PACKED: &[(&str, [Option<i32>; 3], u8)] = &[
    ("a null", [Some(1), None, Some(10)], 0b101),
    ("two nulls", [None, None, Some(0)], 0b100),
    ("no null", [Some(1), Some(2), Some(3)], 0b111),
];

#[test]
fn marks_are_packed_from_the_lowest_bit_on(rt: HostRuntime) {
    for (index, (case, slots, expected)) in PACKED.iter().enumerate() {
        let builder = MutablePrimitiveArray::from(rt.alloc(), slots.as_slice());
        let (_, _, mask) = builder.expect(&rt, "memory").into_inner();
        let bytes = mask.expect(&rt, "a mask").into_vec();
        assert_text::value(bytes.as_slice(), &[*expected]).expect(&rt, row(*case, index).as_str());
        drop(bytes);
    }
}

/// Thaws an array that is not shared.
fn thawed(rt: &impl Abort, array: Numbers) -> MutablePrimitiveArray<i32> {
    array.into_mut().right().expect(rt, "an array alone thaws")
}

#[test]
fn a_frozen_builder_thaws_and_grows(rt: HostRuntime) {
    let values = [1, 2, 3].to_vec(rt.alloc()).expect(&rt, "memory");
    let array = MutablePrimitiveArray::from_vec(values).freeze();
    let mut builder = thawed(&rt, array.expect(&rt, "memory"));
    builder.push(Some(5)).expect(&rt, "memory");
    let array = builder.freeze().expect(&rt, "memory");
    check_numbers(&rt, "pushed", array.clone(), &[1, 2, 3, 5], "none");
    let mut builder = thawed(&rt, array);
    builder.push(Some(9)).expect(&rt, "memory");
    builder.extend_constant(255, Some(9)).expect(&rt, "memory");
    let array = builder.freeze().expect(&rt, "memory");
    assert_text::value(array.len(), 260).expect(&rt, "256 more");
    drop(array);
}

/// A name, slots, the values that they store, and their mask.
const SHARED: &[(&str, [Option<i32>; 3], [i32; 3], &str)] = &[
    ("no null", [Some(1), Some(2), Some(3)], [1, 2, 3], "none"),
    ("a null", [Some(1), None, Some(3)], [1, 0, 3], "101"),
];

#[test]
fn a_clone_thaws_once_the_first_is_dropped(rt: HostRuntime) {
    for (index, (case, slots, values, mask)) in SHARED.iter().enumerate() {
        let name = row(*case, index);
        let case = name.as_str();
        let first = Numbers::from(rt.alloc(), slots.as_slice()).expect(&rt, "memory");
        let second = first.clone().expect(&rt, "memory").into_mut().left();
        let second = second.expect(&rt, "a shared array stays frozen");
        check_numbers(&rt, case, second.clone(), values.as_slice(), *mask);
        check_numbers(&rt, case, Ok(first), values.as_slice(), *mask);
        let builder = Ok(thawed(&rt, second));
        check_growing(&rt, case, builder, values.as_slice(), *mask);
    }
}

/// Slices an array.
fn cut(rt: &impl Abort, array: Numbers, (offset, len): (usize, usize)) -> Numbers {
    assert!(rt; offset <= array.len() && len <= array.len() - offset);
    array.sliced(offset, len)
}

const VALUES: &[Option<i32>] = &[Some(5), Some(6), Some(7), Some(8), Some(9)];

const NULLS: &[Option<i32>] = &[None, Some(6), None, Some(8), None];

/// A name, slots, the offset and the length of a slice, those of a slice of it, and the values and the mask of that.
#[rattlefmt::skip]
const CUTS: &[(&str, &[Option<i32>], (usize, usize), (usize, usize), &[i32], &str)] = &[
    ("values, offsets", VALUES, (1, 3), (1, 2), &[7, 8], "none"),
    ("values, all of a slice", VALUES, (1, 3), (0, 3), &[6, 7, 8], "none"),
    ("values, none", VALUES, (5, 0), (0, 0), &[], "none"),
    ("values, the last of all", VALUES, (0, 5), (4, 1), &[9], "none"),
    ("nulls, offsets", NULLS, (1, 3), (1, 2), &[0, 8], "01"),
    ("nulls, the first of a slice", NULLS, (3, 2), (0, 1), &[8], "1"),
    ("nulls, none", NULLS, (5, 0), (0, 0), &[], ""),
];

#[test]
fn slices_of_slices_add_their_offsets(rt: HostRuntime) {
    for (index, (case, slots, first, second, values, mask)) in CUTS.iter().enumerate() {
        let array = Numbers::from(rt.alloc(), *slots).expect(&rt, "memory");
        let array = cut(&rt, cut(&rt, array, *first), *second);
        check_numbers(&rt, row(*case, index).as_str(), Ok(array), *values, *mask);
    }
}

/// Creates the values 1, 2 and 3.
fn numbers(rt: &impl AllocGlobal) -> Result<Buffer<i32>, Error> {
    buffer_of(rt.alloc(), &[1, 2, 3])
}

const BOOLEANS: &[bool] = &[true, false, true];

const UNFIT: &str = "validity mask length must match the number of values";

/// A name, a mask of three values, whether the data type fits, and the expected answer.
const FAULTS: &[(&str, &str, bool, &str)] = &[
    ("a short mask, wrong type", "11", false, UNFIT),
    ("a long mask, wrong type", "1111", false, UNFIT),
    ("a short mask", "11", true, UNFIT),
    ("wrong type, a mask", "111", false, TYPE),
    ("wrong type, no mask", "none", false, TYPE),
    ("no null", "111", true, "made"),
    ("nulls", "000", true, "made"),
    ("no mask", "none", true, "made"),
];

#[test]
fn the_mask_is_checked_before_the_type(rt: HostRuntime) {
    for (index, (case, mask, fits, answer)) in FAULTS.iter().enumerate() {
        macro_rules! check_constructor {
            ($($type:ident of $values:expr, $mask:ident, $right:ident or $wrong:ident: $error:literal;)*) => {
                $(
                    let validity = $mask(rt.alloc(), *mask).expect(&rt, "memory");
                    let values = $values.expect(&rt, "memory");
                    let data_type = if *fits { DataType::$right } else { DataType::$wrong };
                    let came = tells($type::try_new(data_type, values, validity));
                    let name = row_of(*case, stringify!($type), index);
                    check_answer(&rt, name.as_str(), came, *answer, $error);
                )*
            };
        }
        check_constructor! {
            PrimitiveArray of numbers(&rt), frozen_mask, Date32 or Utf8:
                "PrimitiveArray can only be initialized with a DataType whose physical type is Primitive";
            MutablePrimitiveArray of [1, 2, 3].to_vec(rt.alloc()), growing_mask, Date32 or Utf8:
                "PrimitiveArray can only be initialized with a DataType whose physical type is Primitive";
            BooleanArray of Bitmap::from_slice(rt.alloc(), BOOLEANS), frozen_mask, Boolean or Int32:
                "BooleanArray can only be initialized with a DataType whose physical type is Boolean";
            MutableBooleanArray of MutableBitmap::from_slice(rt.alloc(), BOOLEANS), growing_mask, Boolean or Int32:
                "MutableBooleanArray can only be initialized with a DataType whose physical type is Boolean";
        }
    }
}

/// A name, the mask of three values, and those of the last two and of the first two.
const AGAIN: &[(&str, &str, &str, &str)] = &[
    ("no mask", "none", "none", "none"),
    ("a null in the middle", "101", "01", "10"),
    ("a null at the end", "110", "10", "11"),
];

#[test]
fn parts_of_numbers_and_booleans_are_accepted_again(rt: HostRuntime) {
    for (index, (case, mask, last, first)) in AGAIN.iter().enumerate() {
        let name = row(*case, index);
        let case = name.as_str();
        let mask = frozen_mask(rt.alloc(), *mask).expect(&rt, "memory");
        let values = numbers(&rt).expect(&rt, "memory");
        let array = Numbers::try_new(DataType::Date32, values, mask).expect(&rt, "parts that fit");
        let slice = cut(&rt, array.clone().expect(&rt, "memory"), (1, 2));
        let (data_type, values, mask) = slice.into_inner();
        let slice = Numbers::try_new(data_type, values, mask);
        check_numbers(&rt, case, slice, &[2, 3], *last);
        let mut builder = thawed(&rt, array);
        builder.pop();
        let (data_type, values, mask) = builder.into_inner();
        let builder = MutablePrimitiveArray::try_new(data_type, values, mask);
        check_growing(&rt, case, builder, &[1, 2], *first);
    }
    for (index, (case, mask, last, first)) in AGAIN.iter().enumerate() {
        let name = row_of(*case, "booleans", index);
        let case = name.as_str();
        let mask = frozen_mask(rt.alloc(), *mask).expect(&rt, "memory");
        let values = Bitmap::from_slice(rt.alloc(), BOOLEANS).expect(&rt, "memory");
        let array = BooleanArray::try_new(DataType::Boolean, values, mask);
        let array = array.expect(&rt, "parts that fit");
        let slice = array.clone().expect(&rt, "memory");
        assert!(rt; slice.len() == 3);
        let (data_type, values, mask) = slice.sliced(1, 2).into_inner();
        let slice = BooleanArray::try_new(data_type, values, mask);
        check_booleans(&rt, case, slice, "01", *last);
        let mut builder = array.into_mut().right().expect(&rt, "an array alone thaws");
        builder.pop();
        let array = builder.freeze().expect(&rt, "memory");
        let (data_type, values, mask) = array.into_inner();
        let array = BooleanArray::try_new(data_type, values, mask);
        check_booleans(&rt, case, array, "10", *first);
    }
}
