//! Types by their names, and data types.
use super::*;
use arrow_primitive::*;
use arrow_types::units::IntervalUnit;

/// Compares the types of an array and of a builder, and drops them.
fn check_types<T: NativeType>(
    rt: &impl Abort,
    case: &str,
    array: PrimitiveArray<T>,
    builder: MutablePrimitiveArray<T>,
    expected: DataType,
) {
    let came = (array.data_type(), builder.data_type());
    assert_text::value(came, (&expected, &expected)).expect(rt, case);
    drop(expected);
    drop(builder);
    drop(array);
}

#[test]
fn named_arrays_and_builders_have_their_type(rt: HostRuntime) {
    macro_rules! check_names {
        ($array:ident, $builder:ident, $data_type:expr) => {
            let array = $array::default(rt.alloc()).expect(&rt, "memory");
            let builder = $builder::new(rt.alloc());
            check_types(&rt, stringify!($array), array, builder, $data_type);
        };
    }
    check_names!(Int8Array, Int8Vec, DataType::Int8);
    check_names!(Int16Array, Int16Vec, DataType::Int16);
    check_names!(Int32Array, Int32Vec, DataType::Int32);
    check_names!(Int64Array, Int64Vec, DataType::Int64);
    check_names!(UInt8Array, UInt8Vec, DataType::UInt8);
    check_names!(UInt16Array, UInt16Vec, DataType::UInt16);
    check_names!(UInt32Array, UInt32Vec, DataType::UInt32);
    check_names!(UInt64Array, UInt64Vec, DataType::UInt64);
    check_names!(Int128Array, Int128Vec, DataType::Decimal(32, 32));
    check_names!(Int256Array, Int256Vec, DataType::Decimal256(32, 32));
    check_names!(
        DaysMsArray,
        DaysMsVec,
        DataType::Interval(IntervalUnit::DayTime)
    );
    let months = DataType::Interval(IntervalUnit::MonthDayNano);
    check_names!(MonthsDaysNsArray, MonthsDaysNsVec, months);
}

#[test]
fn arrays_and_builders_keep_their_type_and_values_stay_under_another(rt: HostRuntime) {
    let values = buffer(&rt, &[]);
    let array = PrimitiveArray::<i32>::new(DataType::Int32, values, None);
    let builder = MutablePrimitiveArray::from_data_type(rt.alloc(), DataType::Int32);
    check_types(&rt, "the default type", array, builder, DataType::Int32);
    let values = buffer(&rt, &[]);
    let array = PrimitiveArray::<i64>::new(DataType::Date64, values, None);
    let builder = MutablePrimitiveArray::from_data_type(rt.alloc(), DataType::Date64);
    check_types(&rt, "new, from_data_type", array, builder, DataType::Date64);
    let array = PrimitiveArray::<i64>::default(rt.alloc()).expect(&rt, "memory");
    let builder = MutablePrimitiveArray::with_capacity_from(rt.alloc(), 1, DataType::Date64);
    let (array, builder) = (array.to(DataType::Date64), builder.expect(&rt, "memory"));
    let case = "to, with_capacity_from";
    check_types(&rt, case, array, builder, DataType::Date64);
    let array = growing::<i32>(&rt, &[1, 2]).freeze().expect(&rt, "memory");
    let dates = array.to(DataType::Date32);
    let numbers = dates.clone().expect(&rt, "memory").to(DataType::Int32);
    assert_text::value(dates.data_type(), &DataType::Date32).expect(&rt, "dates");
    assert_text::slots(dates.iter(), "[1 2]").expect(&rt, "dates");
    drop(dates);
    check(&rt, "numbers", Ok(numbers), &[1, 2], "none");
}
