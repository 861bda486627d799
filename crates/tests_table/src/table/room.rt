//! Room that builders of bytes and text reserve, which their capacities show.
use super::steps;
use arrow_table::{Entry, Kind, Table};

#[test]
fn slots_and_bytes_are_reserved_each_by_its_number(rt: HostRuntime) {
    for (name, kind) in [
        ("mbin", Kind::MutableBinary),
        ("mutf8", Kind::MutableUtf8),
        ("vbin", Kind::BinaryValues),
        ("vutf8", Kind::Utf8Values),
    ] {
        for (slots, bytes) in [(1000, 10), (10, 1000)] {
            let mut table = Table::<i64, i32>::new(rt.alloc(), 1).expect(&rt, "memory");
            steps!(&rt, &mut table; New(0, kind) => "ok"; Reserve(0, slots, bytes) => "ok";);
            let (came, room) = match table.get(0) {
                Some(Entry::MutableBinary(made)) => (made.capacity(), made.values().capacity()),
                Some(Entry::MutableUtf8(made)) => (made.capacity(), made.values().capacity()),
                Some(Entry::BinaryValues(made)) => (made.capacity(), made.values().capacity()),
                Some(Entry::Utf8Values(made)) => (made.capacity(), made.values().capacity()),
                _ => (0, 0),
            };
            table.discard();
            let is_room = came >= slots && (slots == 1000 || came < 1000);
            assert!(rt;
                is_room,
                "{name}: room for {came} slots, where {slots} are reserved"
            );
            let is_room = room >= bytes && (bytes == 1000 || room < 1000);
            assert!(rt;
                is_room,
                "{name}: room for {room} bytes, where {bytes} are reserved"
            );
        }
    }
}
