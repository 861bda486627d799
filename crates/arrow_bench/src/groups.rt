//! Groups, sums and least values of groups, and hashes, over arrays that are made once.
use crate::compute::pair;
use crate::kernels::texts_array;
use crate::operation::{Operation, run};
use crate::whole::array_of_parts;
use arrow_primitive::PrimitiveArray;
use arrow_types::data_type::DataType;
use arrow_utf8::Utf8Array;
use compute_aggregate::aggregate::{group_min_primitive, group_sum_primitive, group_sum_wide};
use compute_group::{Groups, group_primitive, group_utf8, group_utf8_with, hash_primitive};
use std::alloc::Global;
use std::hash::RandomState;
use std::io;
use std::random::RandomSource;

struct Group;

impl Operation for Group {
    type Source = PrimitiveArray<i64>;

    type Made = Groups;

    #[inline(always)]
    fn make(alloc: Global, array: &PrimitiveArray<i64>) -> Option<Groups> {
        group_primitive(alloc, array).ok()
    }
}

// the groups of equal slots
#[unsafe(no_mangle)]
pub extern "C" fn rattle_flat_group_prim(
    alloc: Global,
    values: &[i64],
    valid: &[u8],
    rounds: usize,
) -> u64 {
    run::<Group>(alloc, array_of_parts(alloc, values, valid), rounds)
}

struct GroupTexts;

impl Operation for GroupTexts {
    type Source = Utf8Array<i32>;

    type Made = Groups;

    #[inline(always)]
    fn make(alloc: Global, array: &Utf8Array<i32>) -> Option<Groups> {
        group_utf8(alloc, array).ok()
    }
}

// the groups of equal texts
#[unsafe(no_mangle)]
pub extern "C" fn rattle_flat_group_utf8(
    alloc: Global,
    data: &[u8],
    offsets: &[i32],
    valid: &[u8],
    rounds: usize,
) -> u64 {
    run::<GroupTexts>(alloc, texts_array(alloc, data, offsets, valid), rounds)
}

/// A number that the driver chooses at random, in place of the random bytes of a program's runtime.
#[derive(Drop)]
struct Seed(u64);

impl RandomSource for Seed {
    fn fill_bytes(&self, buf: &mut [u8]) -> io::Result<()> {
        let mut bytes = self.0;
        for byte in buf {
            *byte = (bytes & 0xff) as u8;
            bytes = bytes.rotate_right(8);
        }
        Ok(())
    }
}

struct GroupTextsByKeys;

impl Operation for GroupTextsByKeys {
    type Source = (Utf8Array<i32>, RandomState);

    type Made = Groups;

    #[inline(always)]
    fn make(alloc: Global, (array, keys): &(Utf8Array<i32>, RandomState)) -> Option<Groups> {
        group_utf8_with(alloc, *keys, array).ok()
    }
}

// the groups of equal texts, by a hash function with keys that are made of the seed
#[unsafe(no_mangle)]
pub extern "C" fn rattle_flat_group_utf8_with(
    alloc: Global,
    data: &[u8],
    offsets: &[i32],
    seed: u64,
    rounds: usize,
) -> u64 {
    let source = match (
        texts_array(alloc, data, offsets, &[]),
        RandomState::new(&Seed(seed)),
    ) {
        (Some(array), Ok(keys)) => Some((array, keys)),
        _ => None,
    };
    run::<GroupTextsByKeys>(alloc, source, rounds)
}

/// Values, and the groups of keys.
type ValuesOfGroups = (PrimitiveArray<i64>, Groups);

/// Returns values, and the groups of equal keys, which have no null.
fn with_groups(
    alloc: Global,
    values: &[i64],
    keys: &[i64],
    valid: &[u8],
) -> Option<ValuesOfGroups> {
    let (values, keys) = pair(alloc, values, keys, valid)?;
    let groups = group_primitive(alloc, &keys).ok()?;
    Some((values, groups))
}

struct SumGroups;

impl Operation for SumGroups {
    type Source = ValuesOfGroups;

    type Made = PrimitiveArray<i64>;

    #[inline(always)]
    fn make(alloc: Global, (values, groups): &ValuesOfGroups) -> Option<PrimitiveArray<i64>> {
        if groups.indices().len() != values.len() {
            return None;
        }
        group_sum_primitive(alloc, values, groups).ok()
    }
}

// the sum of the values of each group of equal keys, which are grouped once and have no null
#[unsafe(no_mangle)]
pub extern "C" fn rattle_flat_group_sum(
    alloc: Global,
    values: &[i64],
    keys: &[i64],
    valid: &[u8],
    rounds: usize,
) -> u64 {
    run::<SumGroups>(alloc, with_groups(alloc, values, keys, valid), rounds)
}

struct SumGroupsWide;

impl Operation for SumGroupsWide {
    type Source = ValuesOfGroups;

    type Made = PrimitiveArray<i128>;

    #[inline(always)]
    fn make(alloc: Global, (values, groups): &ValuesOfGroups) -> Option<PrimitiveArray<i128>> {
        if groups.indices().len() != values.len() {
            return None;
        }
        group_sum_wide(alloc, values, groups, DataType::Decimal(38, 0)).ok()
    }
}

// the sum of the values of each group, in 128 bits
#[unsafe(no_mangle)]
pub extern "C" fn rattle_flat_group_sum_wide(
    alloc: Global,
    values: &[i64],
    keys: &[i64],
    valid: &[u8],
    rounds: usize,
) -> u64 {
    run::<SumGroupsWide>(alloc, with_groups(alloc, values, keys, valid), rounds)
}

struct LeastOfGroups;

impl Operation for LeastOfGroups {
    type Source = ValuesOfGroups;

    type Made = PrimitiveArray<i64>;

    #[inline(always)]
    fn make(alloc: Global, (values, groups): &ValuesOfGroups) -> Option<PrimitiveArray<i64>> {
        if groups.indices().len() != values.len() {
            return None;
        }
        group_min_primitive(alloc, values, groups).ok()
    }
}

// the least value of each group
#[unsafe(no_mangle)]
pub extern "C" fn rattle_flat_group_min(
    alloc: Global,
    values: &[i64],
    keys: &[i64],
    valid: &[u8],
    rounds: usize,
) -> u64 {
    run::<LeastOfGroups>(alloc, with_groups(alloc, values, keys, valid), rounds)
}

struct Hash;

impl Operation for Hash {
    type Source = PrimitiveArray<i64>;

    type Made = PrimitiveArray<u64>;

    #[inline(always)]
    fn make(alloc: Global, array: &PrimitiveArray<i64>) -> Option<PrimitiveArray<u64>> {
        hash_primitive(alloc, array).ok()
    }
}

// the hash of each slot
#[unsafe(no_mangle)]
pub extern "C" fn rattle_flat_hash_prim(
    alloc: Global,
    values: &[i64],
    valid: &[u8],
    rounds: usize,
) -> u64 {
    run::<Hash>(alloc, array_of_parts(alloc, values, valid), rounds)
}
