//! Groups of equal slots, which were worked out by hand, by several hash functions, and which slots have equal hashes.
use crate::arrays::{booleans, check_mask, check_value, items, numbers, row};
use arrow_binary::BinaryArray;
use arrow_primitive::PrimitiveArray;
use arrow_types::error::Error;
use arrow_utf8::{MutableUtf8Array, Utf8Array};
use compute_group::{
    Groups, group_binary, group_binary_with, group_boolean, group_boolean_with, group_primitive,
    group_primitive_with, group_utf8, group_utf8_with, hash_binary, hash_boolean, hash_primitive,
    hash_utf8,
};
use std::hash::{BuildHasher, BuildHasherDefault, FoldHasher, Hasher, RandomState};
use std::process::Abort;
use tests_support::Text;

/// Compares the first slot of each group, and the number of each slot's group.
fn check_groups(
    rt: &impl Abort,
    row: &str,
    answer: Result<Groups, Error>,
    first: &[usize],
    indices: &[usize],
) {
    let groups = answer.expect(rt, row);
    check_value(rt, row, groups.first(), first);
    check_value(rt, row, groups.indices(), indices);
    drop(groups);
}

/// A name, slots, the first slot of each group, and the number of each slot's group.
#[rattlefmt::skip]
const NUMBERS: &[(&str, &[Option<i64>], &[usize], &[usize])] = &[
    ("no slot", &[], &[], &[]),
    ("all equal", &[Some(7), Some(7), Some(7)], &[0], &[0, 0, 0]),
    ("in the order of appearance", &[Some(9), Some(-1), Some(9), Some(3), Some(-1)], &[0, 1, 3], &[0, 1, 0, 2, 1]),
    ("null slots are one group", &[Some(1), None, Some(2), None, Some(1)], &[0, 1, 2], &[0, 1, 2, 1, 0]),
    ("a null is not zero", &[None, Some(0), None], &[0, 1], &[0, 1, 0]),
    ("null slots only", &[None, None], &[0], &[0, 0]),
    ("least and greatest", &[Some(i64::MIN), Some(i64::MAX), Some(i64::MIN)], &[0, 1], &[0, 1, 0]),
];

/// A name, slots, the first slot of each group, and the number of each slot's group.
#[rattlefmt::skip]
const BOOLEANS: &[(&str, &[Option<bool>], &[usize], &[usize])] = &[
    ("no slot", &[], &[], &[]),
    ("three groups", &[Some(true), None, Some(true), Some(false), None], &[0, 1, 3], &[0, 1, 0, 2, 1]),
    ("a null is not false", &[None, Some(false)], &[0, 1], &[0, 1]),
];

/// A name, slots, the first slot of each group, and the number of each slot's group.
#[rattlefmt::skip]
const TEXTS: &[(&str, &[Option<&str>], &[usize], &[usize])] = &[
    ("no slot", &[], &[], &[]),
    ("in the order of appearance", &[Some("pear"), Some("fig"), Some("pear"), Some("a"), Some("fig")], &[0, 1, 3], &[0, 1, 0, 2, 1]),
    ("a null is not the empty text", &[Some(""), None, Some(""), None], &[0, 1], &[0, 1, 0, 1]),
    ("the empty text is not a null", &[None, Some(""), None], &[0, 1], &[0, 1, 0]),
    ("a null between known texts", &[Some("a"), None, Some("b"), Some("a"), Some("b"), None], &[0, 1, 2], &[0, 1, 2, 0, 2, 1]),
    ("one text begins another", &[Some("ab"), Some("a"), Some("abc"), Some("ab")], &[0, 1, 2], &[0, 1, 2, 0]),
    ("the last byte differs", &[Some("the same sixteen and a"), Some("the same sixteen and b"), Some("the same sixteen and a")], &[0, 1], &[0, 1, 0]),
];

/// Bytes that are no text.
#[rattlefmt::skip]
const BYTES: &[Option<&[u8]>] = &[Some(&[255, 0]), None, Some(&[]), Some(&[255, 0]), Some(&[255]), None];

#[test]
fn groups_of_equal_slots(rt: HostRuntime) {
    let alloc = rt.alloc();
    for (index, (case, slots, first, indices)) in NUMBERS.iter().enumerate() {
        let row = row("groups of numbers", "Int64", index, *case);
        let array = numbers(&rt, *slots);
        check_groups(
            &rt,
            row.as_str(),
            group_primitive(alloc, &array),
            *first,
            *indices,
        );
        drop(array);
    }
    for (index, (case, slots, first, indices)) in BOOLEANS.iter().enumerate() {
        let row = row("groups of booleans", "Boolean", index, *case);
        let array = booleans(&rt, *slots);
        check_groups(
            &rt,
            row.as_str(),
            group_boolean(alloc, &array),
            *first,
            *indices,
        );
        drop(array);
    }
    for (index, (case, slots, first, indices)) in TEXTS.iter().enumerate() {
        let narrow = row("groups of texts", "Utf8", index, *case);
        let array: Utf8Array<i32> = items(&rt, *slots);
        check_groups(
            &rt,
            narrow.as_str(),
            group_utf8(alloc, &array),
            *first,
            *indices,
        );
        drop(array);
        let wide = row("groups of texts", "LargeUtf8", index, *case);
        let array: Utf8Array<i64> = items(&rt, *slots);
        check_groups(
            &rt,
            wide.as_str(),
            group_utf8(alloc, &array),
            *first,
            *indices,
        );
        drop(array);
    }
    let array: BinaryArray<i32> = items(&rt, BYTES);
    let groups = group_binary(alloc, &array);
    drop(array);
    check_groups(
        &rt,
        "groups of bytes",
        groups,
        &[0, 1, 2, 4],
        &[0, 1, 2, 0, 3, 1],
    );
    let array: BinaryArray<i64> = items(&rt, BYTES);
    assert!(rt; array.len() == 6, "six slots");
    // the slots around the slice are those of other groups
    let array = array.sliced(1, 3);
    let groups = group_binary(alloc, &array);
    drop(array);
    check_groups(
        &rt,
        "groups of bytes: a slice",
        groups,
        &[0, 1, 2],
        &[0, 1, 2],
    );
}

/// Hashes every key to the same number, which costs time and must not change an answer.
#[derive(Clone, Copy)]
struct OneHash;

impl Hasher for OneHash {
    ghost write = { λ hasher _. hasher };

    ghost finish = { λ _. 7 };

    fn finish(&self) -> u64 {
        7
    }

    fn write(&mut self, _bytes: &[u8]) {}
}

impl BuildHasher for OneHash {
    type Hasher = OneHash;

    ghost build_hasher = { λ hashers. hashers };

    fn build_hasher(&self) -> OneHash {
        *self
    }
}

/// Compares the groups of each table of slots, hashed by `hashers`.
fn check_tables<S: BuildHasher + Copy>(rt: &(impl Abort + AllocGlobal), name: &str, hashers: S) {
    let alloc = rt.alloc();
    for (index, (case, slots, first, indices)) in NUMBERS.iter().enumerate() {
        let row = row(name, "Int64", index, *case);
        let array = numbers(rt, *slots);
        let groups = group_primitive_with(alloc, hashers, &array);
        drop(array);
        check_groups(rt, row.as_str(), groups, *first, *indices);
    }
    for (index, (case, slots, first, indices)) in BOOLEANS.iter().enumerate() {
        let row = row(name, "Boolean", index, *case);
        let array = booleans(rt, *slots);
        let groups = group_boolean_with(alloc, hashers, &array);
        drop(array);
        check_groups(rt, row.as_str(), groups, *first, *indices);
    }
    for (index, (case, slots, first, indices)) in TEXTS.iter().enumerate() {
        let row = row(name, "Utf8", index, *case);
        let array: Utf8Array<i32> = items(rt, *slots);
        let groups = group_utf8_with(alloc, hashers, &array);
        drop(array);
        check_groups(rt, row.as_str(), groups, *first, *indices);
    }
    let row = row(name, "LargeBinary", 0, "bytes that are no text");
    let array: BinaryArray<i64> = items(rt, BYTES);
    let groups = group_binary_with(alloc, hashers, &array);
    drop(array);
    check_groups(rt, row.as_str(), groups, &[0, 1, 2, 4], &[0, 1, 2, 0, 3, 1]);
}

#[test]
fn groups_do_not_depend_on_the_hash_function(rt: HostRuntime) {
    let random = RandomState::new(&rt).expect(&rt, "random keys");
    check_tables(&rt, "random keys", random);
    check_tables(&rt, "fixed keys", BuildHasherDefault::<FoldHasher>::new());
    check_tables(&rt, "one hash for all", OneHash);
}

/// How many texts of one hash there are, each of which comes twice.
const ALIKE: u32 = 200;

/// Checks the groups of texts of one hash.
fn check_alike(rt: &impl Abort, row: &str, answer: Result<Groups, Error>) {
    let groups = answer.expect(rt, row);
    let sizes = (groups.len(), groups.indices().len());
    let last = (
        groups.first().last().copied(),
        groups.indices().last().copied(),
    );
    drop(groups);
    check_value(rt, row, sizes, (200, 400));
    check_value(rt, row, last, (Some(199), Some(199)));
}

#[test]
fn texts_of_one_hash_are_groups_of_their_own(rt: HostRuntime) {
    let alloc = rt.alloc();
    let mut texts = MutableUtf8Array::<i32>::new(alloc).expect(&rt, "memory");
    for i in 0..2 * ALIKE {
        let digits = i % ALIKE;
        let text = Text::of(format_args!("user-agent: ahowDx%&UkzE{digits:08}"));
        texts.push(Some(text.as_str())).expect(&rt, "memory");
    }
    let texts = texts.freeze().expect(&rt, "memory");
    let fixed = BuildHasherDefault::<FoldHasher>::new();
    let first = fixed.hash_one("user-agent: ahowDx%&UkzE00000000");
    let last = fixed.hash_one("user-agent: ahowDx%&UkzE00000199");
    check_value(&rt, "hashes of two texts by the fixed keys", last, first);
    let random = RandomState::new(&rt).expect(&rt, "random keys");
    check_alike(&rt, "Utf8, by fixed keys", group_utf8(alloc, &texts));
    let groups = group_utf8_with(alloc, random, &texts);
    check_alike(&rt, "Utf8, by random keys", groups);
    let groups = group_utf8_with(alloc, OneHash, &texts);
    check_alike(&rt, "Utf8, one hash for all", groups);
    drop(texts);
}

/// A number of keys through which 2,000 slots go again and again, of which one in a given number is null; the first null
/// slot; and the numbers of the last two slots, the second of which is null.
const TURNS: &[(u64, u64, usize, usize, usize)] = &[
    (20, 50, 49, 18, 20),
    (100, 1000, 999, 98, 100),
];

#[test]
fn many_groups_and_keys_in_turn(rt: HostRuntime) {
    let alloc = rt.alloc();
    let mut values = Vec::new(alloc);
    for i in 0..1000u32 {
        values.push(i % 300 * 65536).expect(&rt, "memory");
    }
    let array = PrimitiveArray::from_vec(values).expect(&rt, "memory");
    let groups = group_primitive(alloc, &array).expect(&rt, "memory");
    drop(array);
    check_value(
        &rt,
        "many groups: groups and slots",
        (groups.len(), groups.indices().len()),
        (300, 1000),
    );
    let came = (
        groups.first().last().copied(),
        groups.indices().last().copied(),
    );
    drop(groups);
    check_value(
        &rt,
        "many groups: the last group, the last slot",
        came,
        (Some(299), Some(99)),
    );
    for (keys, nulls, first, last, null) in TURNS {
        let row = Text::of(format_args!("keys in turn: UInt64, {keys} keys"));
        let row = row.as_str();
        assert!(rt; *keys > 0, "keys");
        assert!(rt; *nulls > 0, "nulls");
        let mut slots = Vec::new(alloc);
        for i in 0..2000u64 {
            let is_null = i % *nulls == *nulls - 1;
            let slot = if is_null { None } else { Some(i % *keys) };
            slots.push(slot).expect(&rt, "memory");
        }
        let array = numbers(&rt, &slots);
        drop(slots);
        let groups = group_primitive(alloc, &array).expect(&rt, "memory");
        drop(array);
        let indices = groups.indices();
        check_value(&rt, row, indices.len(), 2000);
        assert!(rt; indices.len() == 2000, "slots");
        check_value(
            &rt,
            row,
            (
                groups.first().last().copied(),
                (indices[1998], indices[1999]),
            ),
            (Some(*first), (*last, *null)),
        );
        drop(groups);
    }
}

/// Compares for each slot the first one of an equal hash.
fn check_hashes(rt: &impl Abort, row: &str, made: PrimitiveArray<u64>, first: &[usize]) {
    check_mask(rt, row, made.validity(), "none");
    let hashes = made.values().as_slice();
    check_value(rt, row, hashes.len(), first.len());
    for (i, (hash, expected)) in hashes.iter().zip(first.iter()).enumerate() {
        let mut found = None;
        for (place, other) in hashes.iter().enumerate() {
            if found.is_none() && *other == *hash {
                found = Some(place);
            }
        }
        check_value(rt, row, (i, found), (i, Some(*expected)));
    }
    drop(made);
}

const PEAR: &[Option<&[u8]>] = &[Some(b"pear"), None];

#[test]
fn equal_slots_have_equal_hashes(rt: HostRuntime) {
    let alloc = rt.alloc();
    let array = numbers(&rt, &[Some(7), None, Some(0), Some(7), None]);
    let made = hash_primitive::<i32>(alloc, &array).expect(&rt, "memory");
    drop(array);
    check_hashes(&rt, "Int32: seven, a null, zero", made, &[0, 1, 2, 0, 1]);
    let array = booleans(&rt, &[Some(true), None, Some(false), Some(true)]);
    let made = hash_boolean(alloc, &array).expect(&rt, "memory");
    drop(array);
    check_hashes(&rt, "Boolean: true, a null, false", made, &[0, 1, 2, 0]);
    let row = "equal items have equal hashes";
    let array: Utf8Array<i32> = items(&rt, &[Some("pear"), None, Some(""), Some("pear"), None]);
    let texts = hash_utf8(alloc, &array).expect(&rt, "memory");
    drop(array);
    let array: BinaryArray<i64> = items(&rt, PEAR);
    let bytes = hash_binary(alloc, &array).expect(&rt, "memory");
    drop(array);
    let (of_texts, of_bytes) = (texts.values().as_slice(), bytes.values().as_slice());
    check_value(
        &rt,
        row,
        of_bytes.first().copied(),
        of_texts.first().copied(),
    );
    check_value(&rt, row, of_bytes.last().copied(), of_texts.last().copied());
    check_hashes(&rt, "LargeBinary: pear, a null", bytes, &[0, 1]);
    check_hashes(
        &rt,
        "Utf8: pear, a null, the empty text",
        texts,
        &[0, 1, 2, 0, 1],
    );
}

#[test]
fn groups_are_lists_of_slots(rt: HostRuntime) {
    let alloc = rt.alloc();
    let array = numbers(&rt, &[Some(5i64), None, Some(5), Some(7), None]);
    let groups = group_primitive(alloc, &array).expect(&rt, "memory");
    drop(array);
    let texts: Utf8Array<i32> = items(&rt, &[Some("a"), Some("b"), Some("a"), None, Some("b")]);
    let others = group_utf8(alloc, &texts).expect(&rt, "memory");
    drop(texts);
    check_value(
        &rt,
        "number of groups",
        (groups.len(), groups.is_empty()),
        (3, false),
    );
    check_value(&rt, "groups of equal numbers", groups == others, true);
    drop(others);
    let copy = groups.clone().expect(&rt, "memory");
    check_value(&rt, "a copy", copy == groups, true);
    drop(copy);
    let expected: [&[usize]; 4] = [&[0, 2], &[1, 4], &[3], &[]];
    for (group, rows) in expected.iter().enumerate() {
        let made = groups.rows(alloc, group).expect(&rt, "memory");
        check_value(&rt, "slots of a group", made.as_slice(), *rows);
        drop(made);
    }
    let text = Text::of(format_args!("{groups:?}"));
    drop(groups);
    let expected = "Groups { first: [0, 1, 3], indices: [0, 1, 0, 2, 1] }";
    check_value(&rt, "text of groups", text.as_str(), expected);
    let none = numbers::<i64>(&rt, &[]);
    let groups = group_primitive(alloc, &none).expect(&rt, "memory");
    drop(none);
    check_value(
        &rt,
        "no group",
        (groups.len(), groups.is_empty()),
        (0, true),
    );
    drop(groups);
}

#[test]
fn groups_of_rows_of_three_columns(rt: HostRuntime) {
    let alloc = rt.alloc();
    let array: Utf8Array<i32> = items(
        &rt,
        &[Some("a"), Some("a"), None, Some("a"), None, Some("a")],
    );
    let names = group_utf8(alloc, &array).expect(&rt, "memory");
    drop(array);
    let array = numbers(
        &rt,
        &[Some(1i64), Some(2), Some(1), Some(1), Some(1), Some(1)],
    );
    let ages = group_primitive(alloc, &array).expect(&rt, "memory");
    drop(array);
    let array = booleans(
        &rt,
        &[Some(true), None, None, Some(true), Some(false), None],
    );
    let marks = group_boolean(alloc, &array).expect(&rt, "memory");
    drop(array);
    check_value(
        &rt,
        "rows of each column",
        [
            names.indices().len(),
            ages.indices().len(),
            marks.indices().len(),
        ],
        [6; 3],
    );
    assert!(rt; names.indices().len() == ages.indices().len(), "six rows");
    let pairs = names.refine(alloc, &ages).expect(&rt, "memory");
    drop((names, ages));
    assert!(rt; pairs.indices().len() == marks.indices().len(), "six rows");
    let rows = pairs.refine(alloc, &marks);
    let random = RandomState::new(&rt).expect(&rt, "random keys");
    let by_random_keys = pairs.refine_with(alloc, random, &marks);
    drop(marks);
    check_groups(
        &rt,
        "two columns",
        Ok(pairs),
        &[0, 1, 2],
        &[0, 1, 2, 0, 2, 0],
    );
    check_groups(
        &rt,
        "three columns",
        rows,
        &[0, 1, 2, 4, 5],
        &[0, 1, 2, 0, 3, 4],
    );
    check_groups(
        &rt,
        "three columns by random keys",
        by_random_keys,
        &[0, 1, 2, 4, 5],
        &[0, 1, 2, 0, 3, 4],
    );
}
