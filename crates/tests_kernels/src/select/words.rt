//! Kernels over more slots than a word of a mask has marks.
use crate::arrays::{booleans, check_value, numbers};
use arrow_boolean::BooleanArray;
use arrow_primitive::PrimitiveArray;
use compute_select::if_then_else::{if_then_else_boolean, if_then_else_primitive};
use compute_select::nullif::{nullif_boolean, nullif_primitive};
use compute_select::take::{take_boolean, take_primitive};
use std::process::Abort;
use tests_support::Text;

/// Numbers of slots about one and two words of 64 marks.
const COUNTS: &[usize] = &[63, 64, 65, 130];

/// A list of slots.
#[derive(Clone, Copy)]
enum Slots {
    Left,
    Right,
    Keys,
    Chosen,
    Differing,
    Taken,
}

/// The predicate: even indexes, and a null at each eleventh.
fn choice(i: usize) -> Option<bool> {
    if i % 11 == 0 { None } else { Some(i % 2 == 0) }
}

/// Returns the slot at an index, worked out slot by slot. Each third key is null; the others are below 50.
fn slot(slots: Slots, i: usize) -> Option<i32> {
    let key = i % 50 * 7 % 50;
    let place = match slots {
        Slots::Taken => 3 + key,
        _ => i,
    };
    let left = if place % 5 == 0 {
        None
    } else {
        Some((place % 10) as i32)
    };
    let right = if i % 7 == 0 {
        None
    } else {
        Some((i % 15) as i32)
    };
    match slots {
        Slots::Left => left,
        Slots::Right => right,
        Slots::Keys => { if i % 3 == 0 { None } else { Some(key as i32) } }
        Slots::Chosen => {
            match choice(i) {
                Some(true) => left,
                Some(false) => right,
                None => None,
            }
        }
        Slots::Differing => { if left == right { None } else { left } }
        Slots::Taken => { if i % 3 == 0 { None } else { left } }
    }
}

/// Creates `count` slots from `first` on of an array of 200.
fn made(
    rt: &(impl Abort + AllocGlobal),
    slots: Slots,
    first: usize,
    count: usize,
) -> PrimitiveArray<i32> {
    let mut all = Vec::new(rt.alloc());
    for i in 0..200 {
        all.push(slot(slots, i)).expect(rt, "memory");
    }
    let array = numbers(rt, &all);
    drop(all);
    assert!(rt;
        first <= array.len() && count <= array.len() - first,
        "a slice"
    );
    array.sliced(first, count)
}

/// Creates `count` slots of the predicate, from the third on of 200.
fn predicate(rt: &(impl Abort + AllocGlobal), count: usize) -> BooleanArray {
    let mut all = Vec::new(rt.alloc());
    for i in 0..200 {
        all.push(choice(i)).expect(rt, "memory");
    }
    let array = booleans(rt, &all);
    drop(all);
    assert!(rt; 3 <= array.len() && count <= array.len() - 3, "a slice");
    array.sliced(3, count)
}

#[test]
fn slots_of_several_words_are_chosen_and_taken(rt: HostRuntime) {
    let alloc = rt.alloc();
    for count in COUNTS {
        let count = *count;
        let predicate = predicate(&rt, count);
        let lhs = made(&rt, Slots::Left, 3, count);
        let rhs = made(&rt, Slots::Right, 3, count);
        assert!(rt;
            lhs.len() == predicate.len() && rhs.len() == predicate.len(),
            "as many"
        );
        let row = Text::of(format_args!("slots of several words are chosen: Int32, {count} slots"));
        let row = row.as_str();
        let chosen = if_then_else_primitive(alloc, &predicate, &lhs, &rhs).expect(&rt, row);
        check_value(&rt, row, chosen, made(&rt, Slots::Chosen, 3, count));
        check_value(
            &rt,
            row,
            nullif_primitive(alloc, &lhs, &rhs).expect(&rt, row),
            made(&rt, Slots::Differing, 3, count),
        );
        drop((rhs, lhs));
        let row = Text::of(format_args!("slots of several words are taken: Int32, {count} keys"));
        let row = row.as_str();
        let array = made(&rt, Slots::Left, 3, 60);
        let keys = made(&rt, Slots::Keys, 1, count);
        let taken = take_primitive(alloc, &array, &keys).expect(&rt, row);
        check_value(&rt, row, taken, made(&rt, Slots::Taken, 1, count));
        drop((keys, array));
        let test = "booleans of several words are chosen and taken";
        let row = Text::of(format_args!("{test}: {count} slots"));
        let row = row.as_str();
        let chosen = if_then_else_boolean(alloc, &predicate, &predicate, &predicate);
        let chosen = chosen.expect(&rt, row);
        // a slot of the result is the predicate's own, or null where that is null
        check_value(&rt, row, &chosen, &predicate);
        drop(chosen);
        let differing = nullif_boolean(alloc, &predicate, &predicate).expect(&rt, row);
        // each is equal to itself, or null
        check_value(&rt, row, differing.null_count(), count);
        drop(differing);
        let keys = made(&rt, Slots::Keys, 1, 60);
        let taken = take_boolean(alloc, &predicate, &keys).expect(&rt, row);
        drop((keys, predicate));
        check_value(&rt, row, taken.len(), 60);
        for (i, came) in taken.iter().enumerate() {
            let expected = if (i + 1) % 3 == 0 {
                None
            } else {
                choice(3 + (i + 1) % 50 * 7 % 50)
            };
            check_value(&rt, row, (i, came), (i, expected));
        }
        drop(taken);
    }
}
