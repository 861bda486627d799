//! Numbers of another type than those of the program: every command on arrays and builders of them, with the replies
//! that `examples/` has for `i64`. A line runs a command, or several, and reads what they changed.
use super::parts::Stored::{Bits, Values};
use super::parts::{Type, parts};
use super::{list, steps};
use arrow_table::{Change, Item, Kind, Parts, Turn};
use arrow_types::data_type::DataType;
use arrow_types::native_type::days_ms;
use arrow_types::units::IntervalUnit;
use std::process::Abort;

/// Creates an item.
fn day(days: i32) -> Item<days_ms> {
    Item::Value(days_ms(days, 0))
}

/// Creates another type than the default of such values.
fn shifts(rt: &(impl Abort + AllocGlobal)) -> DataType {
    let name = String::from_str(rt.alloc(), "shifts").expect(rt, "memory");
    let inner = Box::new(rt.alloc(), DataType::Interval(IntervalUnit::DayTime));
    DataType::Extension(name, inner.expect(rt, "memory"), None)
}

/// The text of that type.
const SHIFTS: &str = "Extension(\"shifts\", Interval(DayTime), None)";

/// Creates parts of that type, of some of four values, with a mask.
fn numbers(
    rt: &(impl Abort + AllocGlobal),
    kind: Kind,
    mask: &'static [u8],
    count: usize,
) -> Parts<days_ms, i64> {
    let values = [days_ms(7, 1), days_ms(8, 2), days_ms(9, 3), days_ms(-6, 4)];
    let mask = Some((mask, count));
    let mut made = parts(rt, kind, Type::Native, mask, &Values(count), &values);
    made.data_type = shifts(rt);
    made
}

#[test]
fn arrays_of_days_are_made_and_read(rt: HostRuntime) {
    steps!(&rt, Table<days_ms, i64>, 8;
        New(0, Kind::Primitive) => "ok"; TypeOf(0) => "Interval(DayTime)"; Slots(0) => "[]"; Held(0) => "false";
        NewNull(1, Kind::Primitive, shifts(&rt), 2) => "ok"; TypeOf(1) => SHIFTS; Slots(1) => "[_ _]";
        Value(1, 1) => "days_ms(0, 0)"; Held(1) => "true";
        NewNull(2, Kind::Primitive, DataType::Boolean, 1) => "not met";
        NewNull(2, Kind::Primitive, DataType::Int64, 1) => "not met";
        NewNull(2, Kind::MutablePrimitive, shifts(&rt), 1) => "not met";
        NewNull(2, Kind::Boolean, DataType::Int64, 1) => "not met";
        NewNull(2, Kind::Binary, DataType::LargeUtf8, 1) => "not met";
        NewNull(2, Kind::Utf8, DataType::LargeBinary, 1) => "not met";
        Parts(2, numbers(&rt, Kind::Primitive, &[13], 4)) => "ok"; Len(2) => "4"; TypeOf(2) => SHIFTS;
        Slots(2) => "[days_ms(7, 1) _ days_ms(9, 3) days_ms(-6, 4)]"; NullCount(2) => "1"; Held(2) => "true";
        Value(2, 1) => "days_ms(8, 2)"; Value(2, 4) => "not met"; Bytes(2) => "not met"; Offsets(2) => "not met";
        Get(2, 1) => "_"; Get(2, 3) => "days_ms(-6, 4)"; IsNull(2, 1) => "true"; IsNull(2, 2) => "false";
        Turns(2, list!(&rt; Turn::Back, Turn::Skip(1), Turn::Front, Turn::Front))
            => "[days_ms(-6, 4) days_ms(8, 2) days_ms(9, 3) _]";
        FromSlots(3, Kind::Primitive, list!(&rt; Some(day(1)), None)) => "ok"; Slots(3) => "[days_ms(1, 0) _]";
        FromSlots(4, Kind::Primitive, list!(&rt; Some(day(1)), Some(Item::Bit(true)))) => "not met";
        FromItems(4, Kind::Primitive, list!(&rt; day(1), day(2))) => "ok"; Held(4) => "false";
        Slots(4) => "[days_ms(1, 0) days_ms(2, 0)]";
        Take(2, list!(&rt; 3, 1, 1), 5) => "ok"; Slots(5) => "[days_ms(-6, 4) _ _]"; TypeOf(5) => SHIFTS;
        Value(5, 1) => "days_ms(8, 2)";
        Take(2, list!(&rt; 0, -1), 6) => "refused: the dictionary key must fit in a usize";
        Take(2, list!(&rt; 4), 6) => "refused: a dictionary key must be below the length of the dictionary values";
        Parts(6, parts(&rt, Kind::Boolean, Type::Bool, Some((&[11], 4)), &Bits((&[14], 4)), &[])) => "ok";
        Filter(2, 6, 7) => "ok"; Slots(7) => "[_ days_ms(-6, 4)]"; Value(7, 0) => "days_ms(8, 2)";
    );
}

#[test]
fn arrays_of_days_are_changed(rt: HostRuntime) {
    steps!(&rt, Table<days_ms, i64>, 2;
        Parts(0, numbers(&rt, Kind::Primitive, &[5], 3)) => "ok"; Clone(0, 1) => "ok";
        Write(0, 0, day(1)) => "not given"; Thaw(0) => "left"; Push(0, None) => "not met";
        Set(0, 0, None) => "not met"; ExtendConstant(0, 1, None) => "not met"; Equal(0, 0) => "not met";
        Slice(1, 1, 2) => "ok"; Slots(1) => "[_ days_ms(9, 3)]"; Slice(1, 1, 2) => "not met";
        ApplyMask(1, Change::Reverse) => "ok"; Slots(1) => "[days_ms(8, 2) _]";
        ApplyMask(1, Change::Fill(Item::Bit(true))) => "ok"; Slots(1) => "[days_ms(8, 2) days_ms(9, 3)]";
        ApplyMask(1, Change::Fill(day(1))) => "not met"; ApplyValues(1, Change::Reverse) => "not met";
        SetMask(1, Some(list!(&rt; false, true))) => "ok"; Slots(1) => "[_ days_ms(9, 3)]";
        SetMask(1, Some(list!(&rt; false))) => "not met"; SetMask(1, None) => "ok"; Held(1) => "false";
        Drop(1) => "ok"; Write(0, 1, day(1)) => "ok"; Value(0, 1) => "days_ms(1, 0)";
        Slots(0) => "[days_ms(7, 1) _ days_ms(9, 3)]";
        Write(0, 3, day(1)) => "not met"; Write(0, 0, Item::Bit(true)) => "not met";
        SetValues(0, list!(&rt; day(4), day(5), day(6))) => "ok"; Slots(0) => "[days_ms(4, 0) _ days_ms(6, 0)]";
        SetValues(0, list!(&rt; day(4), day(5))) => "not met"; To(0, DataType::Int64) => "not met";
        To(0, DataType::Interval(IntervalUnit::DayTime)) => "ok"; TypeOf(0) => "Interval(DayTime)";
        To(0, shifts(&rt)) => "ok"; TypeOf(0) => SHIFTS; Thaw(0) => "right"; TypeOf(0) => SHIFTS;
        Push(0, None) => "ok"; Slots(0) => "[days_ms(4, 0) _ days_ms(6, 0) _]";
    );
}

#[test]
fn builders_of_days_grow(rt: HostRuntime) {
    steps!(&rt, Table<days_ms, i64>, 4;
        New(0, Kind::MutablePrimitive) => "ok"; TypeOf(0) => "Interval(DayTime)"; Reserve(0, 9, 9) => "ok";
        Reserve(0, usize::MAX, 0) => "refused: out of memory"; Reserve(0, 0, usize::MAX) => "ok";
        Push(0, Some(day(-3))) => "ok"; Push(0, Some(Item::Bit(true))) => "not met"; Held(0) => "false";
        PushNull(0) => "ok"; Turns(0, list!(&rt; Turn::Front, Turn::Front)) => "[days_ms(-3, 0) days_ms(0, 0)]";
        Pop(0) => "_"; Pop(0) => "days_ms(-3, 0)"; Pop(0) => "_";
        ExtendValues(0, list!(&rt; day(1), day(2))) => "ok"; Extend(0, list!(&rt; None, Some(day(4)))) => "ok";
        ExtendValues(0, list!(&rt; day(3), Item::Bit(true))) => "not met"; Len(0) => "4";
        ExtendConstant(0, 2, Some(day(9))) => "ok"; ExtendConstant(0, 1, None) => "ok"; Shrink(0) => "ok";
        ExtendConstant(0, 3, Some(Item::Bit(true))) => "not met";
        Slots(0) => "[days_ms(1, 0) days_ms(2, 0) _ days_ms(4, 0) days_ms(9, 0) days_ms(9, 0) _]";
        Parts(1, numbers(&rt, Kind::MutablePrimitive, &[3], 2)) => "ok"; TypeOf(1) => SHIFTS;
        Parts(2, numbers(&rt, Kind::MutablePrimitive, &[2], 2)) => "ok"; ExtendFromSelf(1, 2) => "ok";
        Slots(1) => "[days_ms(7, 1) days_ms(8, 2) _ days_ms(8, 2)]"; ExtendFromSelf(1, 1) => "not met";
        Clone(1, 3) => "ok"; Equal(1, 3) => "true"; To(3, DataType::Interval(IntervalUnit::DayTime)) => "ok";
        Equal(1, 3) => "true"; Set(3, 2, Some(day(0))) => "ok"; Equal(1, 3) => "false";
        Slots(3) => "[days_ms(7, 1) days_ms(8, 2) days_ms(0, 0) days_ms(8, 2)]";
        Set(3, 0, None) => "ok"; Set(3, 4, None) => "not met"; Set(3, 0, Some(Item::Bit(true))) => "not met";
        Slots(3) => "[_ days_ms(8, 2) days_ms(0, 0) days_ms(8, 2)]";
        Freeze(1) => "ok"; Get(1, 3) => "days_ms(8, 2)"; TypeOf(1) => SHIFTS; Drop(1) => "ok"; Len(1) => "not met";
        FromSlots(1, Kind::MutablePrimitive, list!(&rt; None, Some(day(1)))) => "ok"; Held(1) => "true";
        Slots(1) => "[_ days_ms(1, 0)]"; Drop(1) => "ok";
        FromItems(1, Kind::MutablePrimitive, list!(&rt; day(1))) => "ok"; Slots(1) => "[days_ms(1, 0)]";
    );
}

#[test]
fn builders_of_days_are_changed(rt: HostRuntime) {
    steps!(&rt, Table<days_ms, i64>, 1;
        Parts(0, numbers(&rt, Kind::MutablePrimitive, &[6], 3)) => "ok"; Write(0, 0, day(5)) => "ok";
        Slots(0) => "[_ days_ms(8, 2) days_ms(9, 3)]"; Turns(0, list!(&rt; Turn::Front)) => "[days_ms(5, 0)]";
        SetValues(0, list!(&rt; day(4), day(5), day(6))) => "ok"; SetValues(0, list!(&rt; day(4))) => "not met";
        SetValues(0, list!(&rt; day(1), day(2), Item::Bit(true))) => "not met";
        ApplyValues(0, Change::Reverse) => "ok"; Slots(0) => "[_ days_ms(5, 0) days_ms(4, 0)]";
        ApplyValues(0, Change::Fill(Item::Bit(true))) => "not met"; ApplyValues(0, Change::Fill(day(2))) => "ok";
        Turns(0, list!(&rt; Turn::Front, Turn::Back)) => "[days_ms(2, 0) days_ms(2, 0)]";
        SetMask(0, Some(list!(&rt; true, false, true))) => "ok"; Slots(0) => "[days_ms(2, 0) _ days_ms(2, 0)]";
        ApplyMask(0, Change::Reverse) => "not met"; SetMask(0, None) => "ok"; Held(0) => "false";
        To(0, DataType::Int64) => "not met"; To(0, DataType::Interval(IntervalUnit::DayTime)) => "ok";
        TypeOf(0) => "Interval(DayTime)"; To(0, shifts(&rt)) => "ok"; TypeOf(0) => SHIFTS;
    );
}
