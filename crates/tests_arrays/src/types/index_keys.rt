//! Which keys give indexes.
ghost use Rattle.std.specs.Prelude.{◌≡◌};
ghost use Rattle.arrow_types.specs.IndexKey.{index_of};

use arrow_types::index_key::IndexKey;
use std::process::Abort;
use tests_support::assert_text;

/// Returns the index of a key of any type, by its bound.
fn index_by_bound<K: IndexKey>(key: &K) -> Option<usize>
    ensures { result ≡ index_of (K.number key.now) }
{
    key.to_index()
}

/// Compares the index of a key with `expected`.
fn check<K: IndexKey>(rt: &impl Abort, case: &str, key: &K, expected: Option<usize>) {
    assert_text::value(index_by_bound(key), expected).expect(rt, case);
}

#[test]
fn keys_give_their_index_unless_they_are_negative(rt: HostRuntime) {
    check(&rt, "i8, the least", &-128_i8, None);
    check(&rt, "i16, the least", &i16::MIN, None);
    check(&rt, "i32, the least", &i32::MIN, None);
    check(&rt, "i64, the least", &i64::MIN, None);
    check(&rt, "i64, one below zero", &-1_i64, None);
    check(&rt, "i64, seven", &7_i64, Some(7));
    check(&rt, "i8", &127_i8, Some(127));
    check(&rt, "i16", &32767_i16, Some(32767));
    check(&rt, "i32", &i32::MAX, Some(2147483647));
    check(&rt, "i64", &i64::MAX, Some(9223372036854775807));
    check(&rt, "u8", &255_u8, Some(255));
    check(&rt, "u16", &65535_u16, Some(65535));
    check(&rt, "u32", &u32::MAX, Some(4294967295));
    check(&rt, "u64", &u64::MAX, Some(18446744073709551615));
    check(&rt, "usize", &usize::MAX, Some(18446744073709551615));
}
