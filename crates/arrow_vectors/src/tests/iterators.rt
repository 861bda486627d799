//! Iterators: all items of one that reports a wrong length are taken, and one over an array ends for good.
use super::*;
use arrow_bytes::{ByteItem, ItemError};

/// Whether an iterator reports a lower and an upper bound of its length, and by how many items these are too great.
#[derive(Clone, Copy)]
struct Lie {
    name: &'static str,
    has_lower: bool,
    has_upper: bool,
    more: usize,
}

#[rattlefmt::skip]
const LIES: &[Lie] = &[
    Lie { name: "no bound", has_lower: false, has_upper: false, more: 0 },
    Lie { name: "at most nine", has_lower: false, has_upper: true, more: 6 },
    Lie { name: "exactly seven", has_lower: true, has_upper: true, more: 4 },
    Lie { name: "at least usize::MAX", has_lower: true, has_upper: false, more: usize::MAX - 3 },
];

/// An iterator over a list, with wrong bounds of its length.
#[derive(Drop)]
struct Liar<'a, T> {
    items: &'a [T],
    lie: Lie,
}

impl<'a, T: Copy> Iterator for Liar<'a, T> {
    ghost use Rattle.std.specs.Iterator.{YieldsFirst, at_most};
    ghost use Rattle.std.specs.Prelude.{◌+◌, length};

    type Item = T;

    ghost next_gives = { YieldsFirst (λ liar. liar.items.now) };

    ghost remaining = { λ liar. at_most (length liar.items.now + liar.lie.more) };

    fn next(&mut self) -> Option<T> {
        let (item, rest) = self.items.split_first()?;
        self.items = rest;
        Some(*item)
    }

    fn size_hint(&self) -> (usize, Option<usize>) {
        let (count, more) = (self.items.len(), self.lie.more);
        let lower = if self.lie.has_lower {
            count.saturating_add(more)
        } else {
            0
        };
        let upper = if self.lie.has_upper {
            count.checked_add(more)
        } else {
            None
        };
        (lower, upper)
    }
}

/// Returns an iterator over a list with wrong bounds.
fn lying<'a, T: Copy>(items: &'a [T], lie: Lie) -> Liar<'a, T> {
    Liar { items, lie }
}

/// Appends items from an iterator that lies to a builder by a call, which has to take all of them.
macro_rules! grown {
    ($rt:expr, $lie:expr, ($builder:expr).$call:ident($items:expr)) => {{
        let mut builder = $builder;
        builder.$call(lying($items, $lie)).expect($rt, $lie.name);
        builder
    }};
}

/// Writes the name of a call and that of a lie.
fn named(call: &str, lie: Lie) -> Text {
    Text::of(format_args!("{} of {}", call, lie.name))
}

/// Compares by a function what each call makes of an iterator that lies.
macro_rules! check_made {
    ($rt:expr, $lie:expr; $($call:literal: $check:ident($made:expr, $($expected:expr),+);)*) => {
        $(
            $check($rt, named($call, $lie).as_str(), $made, $($expected),+);
        )*
    };
}

#[test]
fn numbers_are_taken_from_an_iterator_that_lies(rt: HostRuntime) {
    type Growing = MutablePrimitiveArray<i64>;
    let (alloc, values) = (rt.alloc(), [1_i64, 0, 3].as_slice());
    let slots = [Some(1_i64), None, Some(3)].as_slice();
    for lie in LIES {
        let (rt, lie) = (&rt, *lie);
        check_made! { rt, lie;
            "extend": check_growing(Ok(grown!(rt, lie, (Growing::new(alloc)).extend(slots))), values, "101");
            "try_extend": check_growing(Ok(grown!(rt, lie, (Growing::new(alloc)).try_extend(slots))), values, "101");
            "extend_values":
                check_growing(Ok(grown!(rt, lie, (Growing::new(alloc)).extend_values(values))), values, "none");
            "from_iter": check_growing(Growing::from_iter(alloc, lying(slots, lie)), values, "101");
            "from_iter of an array": check_numbers(PrimitiveArray::from_iter(alloc, lying(slots, lie)), values, "101");
            "from_values": check_numbers(PrimitiveArray::from_values(alloc, lying(values, lie)), values, "none");
        }
    }
}

#[test]
fn booleans_are_taken_from_an_iterator_that_lies(rt: HostRuntime) {
    type Growing = MutableBooleanArray;
    let (alloc, values) = (rt.alloc(), [true, false, true].as_slice());
    let slots = [Some(true), None, Some(true)].as_slice();
    for lie in LIES {
        let (rt, lie) = (&rt, *lie);
        check_made! { rt, lie;
            "extend": check_booleans(grown!(rt, lie, (Growing::new(alloc)).extend(slots)).freeze(), "101", "101");
            "try_extend":
                check_booleans(grown!(rt, lie, (Growing::new(alloc)).try_extend(slots)).freeze(), "101", "101");
            "extend_values":
                check_booleans(grown!(rt, lie, (Growing::new(alloc)).extend_values(values)).freeze(), "101", "none");
            "from_iter":
                check_booleans(Growing::from_iter(alloc, lying(slots, lie)).expect(rt, "slots").freeze(), "101", "101");
            "from_iter of an array": check_booleans(BooleanArray::from_iter(alloc, lying(slots, lie)), "101", "101");
        }
    }
}

/// Compares builders and arrays of three items that come from iterators that lie.
fn check_lies<K: ByteKind, X: ByteItem<K> + ItemError<Error = Error>>(
    rt: &(impl Abort + AllocGlobal),
    items: &[X],
    slots: &[Option<X>],
) {
    macro_rules! empty {
        ($type:ident) => {
            $type::<K, i32>::new(rt.alloc()).expect(rt, "memory")
        };
    }
    macro_rules! made {
        ($type:ident, $call:ident($items:expr), $lie:ident) => {
            $type::<K, i32>::$call(rt.alloc(), lying($items, $lie))
        };
    }
    for lie in LIES {
        let lie = *lie;
        check_made! { rt, lie;
            "extend": check_builder(Ok(grown!(rt, lie, (empty!(MutableByteArray)).extend(slots))), SLOTS);
            "try_extend": check_builder(Ok(grown!(rt, lie, (empty!(MutableByteArray)).try_extend(slots))), SLOTS);
            "extend_values": check_builder(Ok(grown!(rt, lie, (empty!(MutableByteArray)).extend_values(items))), ITEMS);
            "from_iter": check_builder(made!(MutableByteArray, from_iter(slots), lie), SLOTS);
            "from_iter_values": check_builder(made!(MutableByteArray, from_iter_values(items), lie), ITEMS);
            "extend items": check_values(Ok(grown!(rt, lie, (empty!(MutableByteValuesArray)).extend(items))), ITEMS);
            "try_extend items":
                check_values(Ok(grown!(rt, lie, (empty!(MutableByteValuesArray)).try_extend(items))), ITEMS);
            "from_iter of items": check_values(made!(MutableByteValuesArray, from_iter(items), lie), ITEMS);
            "try_from_iter of items": check_values(made!(MutableByteValuesArray, try_from_iter(items), lie), ITEMS);
            "from_iter of an array": check_array(made!(ByteArray, from_iter(slots), lie), SLOTS);
            "from_iter_values of an array": check_array(made!(ByteArray, from_iter_values(items), lie), ITEMS);
        }
    }
}

const BYTES: &[&[u8]] = &[b"hi", b"", b"there"];

const TEXTS: &[&str] = &["hi", "", "there"];

#[test]
fn bytes_and_texts_are_taken_from_an_iterator_that_lies(rt: HostRuntime) {
    check_lies::<Binary, &[u8]>(&rt, BYTES, BYTE_SLOTS);
    check_lies::<Utf8, &str>(&rt, TEXTS, TEXT_SLOTS);
}

/// Compares the items of an iterator from both ends, and after its end.
fn check_ends<O: Offset>(rt: &(impl Abort + AllocGlobal)) {
    let array = ByteArray::<Utf8, O>::from_slice(rt.alloc(), ["10", "20", "30"].as_slice());
    let array = array.expect(rt, "memory");
    let name = case_of::<Utf8, O>("both ends, nth(0), and past the end");
    let mut items = array.values_iter();
    let ends = (items.next(), items.next_back(), items.len());
    let rest = (items.nth(0), items.next(), items.next_back());
    let expected = r#"((Some("10"), Some("30"), 1), (Some("20"), None, None))"#;
    check_text(rt, name.as_str(), (ends, rest), expected);
    let name = case_of::<Utf8, O>("skipping too many");
    let mut items = array.values_iter();
    let skipped = (items.next(), items.nth(usize::MAX), items.len());
    let rest = (items.next(), items.next_back());
    let expected = r#"((Some("10"), None, 0), (None, None))"#;
    check_text(rt, name.as_str(), (skipped, rest), expected);
    drop(array);
}

#[test]
fn an_iterator_ends_for_good(rt: HostRuntime) {
    for_each_offset!(check_ends, &rt);
}
