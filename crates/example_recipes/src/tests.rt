//! Each recipe run once. What a recipe returns is proved; that it succeeds with ample memory is tested here.
use crate::from_arrow2;
use crate::parts::receive;
use crate::push::prices;
use crate::rows::{join, keep_range, keep_where, pick};
use crate::slots::without_nulls;
use crate::within::within;
use dethrugn::array::{BooleanArray, Utf8Array};
use dethrugn::buffer::Buffer;
use dethrugn::error::Error;
use dethrugn::offset::{Offsets, OffsetsBuffer};
use std::alloc::Global;
use std::process::Abort;
use std::test::Fail;

fn has_prices(alloc: Global, rt: &impl Abort) -> bool {
    let array = prices(alloc, &[5, -1, 0]).expect(rt, "memory");
    let is_right = array.len() == 3
        && array.get(0) == Some(5)
        && array.get(1) == None
        && array.get(2) == Some(0);
    drop(array);
    is_right
}

#[test]
fn negative_prices_are_null(rt: HostRuntime) -> Result<(), Fail> {
    assert!(rt; has_prices(rt.alloc(), &rt));
    Ok(())
}

#[test]
fn nulls_become_zeros(rt: HostRuntime) {
    let array = prices(rt.alloc(), &[5, -1, 0]).expect(&rt, "memory");
    let made = without_nulls(rt.alloc(), &array).expect(&rt, "memory");
    assert_eq!(&rt; (made.get(1), made.null_count()), (Some(0), 0));
    drop(made);
    drop(array);
}

#[test]
fn values_lie_between_two_others(rt: HostRuntime) {
    let array = prices(rt.alloc(), &[1, 5, -1, 9]).expect(&rt, "memory");
    let made = within(rt.alloc(), &array, 2, 9).expect(&rt, "memory");
    assert!(&rt; made.len() == 4);
    let slots = (made.get(0), made.get(1), made.get(2), made.get(3));
    assert_eq!(&rt; slots, (Some(false), Some(true), None, Some(false)));
    drop(made);
    drop(array);
}

fn offsets(alloc: Global, last: i32) -> Result<OffsetsBuffer<i32>, Error> {
    Offsets::try_from_vec([0, 1, last].to_vec(alloc)?)?.freeze()
}

fn received(alloc: Global, last: i32) -> Result<Utf8Array<i32>, Error> {
    receive(
        offsets(alloc, last)?,
        Buffer::from_vec("aé".as_bytes().to_vec(alloc)?)?,
    )
}

fn has_texts(alloc: Global, rt: &impl Abort) -> bool {
    let texts = received(alloc, 3).expect(rt, "memory");
    let is_right = texts.len() == 2 && texts.get(0) == Some("a") && texts.get(1) == Some("é");
    drop(texts);
    is_right
}

#[test]
fn texts_are_received_if_each_is_utf8(rt: HostRuntime) -> Result<(), Fail> {
    assert!(rt; has_texts(rt.alloc(), &rt));
    assert!(rt; received(rt.alloc(), 2).is_err());
    Ok(())
}

fn is_pair(texts: Utf8Array<i32>, first: Option<&str>, second: Option<&str>) -> bool {
    let is_right = texts.len() == 2 && texts.get(0) == first && texts.get(1) == second;
    drop(texts);
    is_right
}

fn names(alloc: Global) -> Result<Utf8Array<i32>, Error> {
    Utf8Array::from(alloc, &[Some("Ada"), None, Some("Édouard")])
}

fn kept(alloc: Global) -> Result<Utf8Array<i32>, Error> {
    let all = names(alloc)?;
    let filter = BooleanArray::from_slice(alloc, &[false, true, true])?;
    if filter.len() != all.len() {
        return Err(Error::OutOfMemory);
    }
    keep_where(alloc, &all, &filter)
}

fn ranged(alloc: Global) -> Result<Utf8Array<i32>, Error> {
    let mut all = names(alloc)?;
    if 3 <= all.len() {
        keep_range(&mut all, 1, 2);
    }
    Ok(all)
}

fn picked(alloc: Global, index: i64) -> Result<Utf8Array<i32>, Error> {
    pick(alloc, &names(alloc)?, &[index, 0])
}

fn joined(alloc: Global) -> Result<Utf8Array<i32>, Error> {
    join(alloc, &[picked(alloc, 2)?])
}

#[test]
fn rows_are_kept(rt: HostRuntime) -> Result<(), Fail> {
    let alloc = rt.alloc();
    assert!(rt; is_pair(kept(alloc).expect(&rt, "memory"), None, Some("Édouard")));
    assert!(rt; is_pair(ranged(alloc).expect(&rt, "memory"), None, Some("Édouard")));
    assert!(rt;
        is_pair(
            picked(alloc, 2).expect(&rt, "memory"),
            Some("Édouard"),
            Some("Ada")
        )
    );
    assert!(rt;
        is_pair(
            joined(alloc).expect(&rt, "memory"),
            Some("Édouard"),
            Some("Ada")
        )
    );
    assert!(rt; picked(alloc, 3).is_err());
    Ok(())
}

#[test]
fn pieces_of_code_from_arrow2_run(rt: HostRuntime) {
    let alloc = rt.alloc();
    let names = from_arrow2::names(alloc).expect(&rt, "memory");
    assert_eq!(&rt; from_arrow2::longest(&names), 3);
    let picked = from_arrow2::picked(alloc, &names).expect(&rt, "keys in bounds");
    assert!(&rt; picked.len() == 2);
    assert_eq!(&rt; picked.get(1), Some("Ada"));
    drop(picked);
    drop(names);
    let ages = from_arrow2::ages(alloc).expect(&rt, "memory");
    let first = from_arrow2::first_ten(&ages).expect(&rt, "memory");
    let both = [ages, first];
    let joined = from_arrow2::joined(alloc, &both).expect(&rt, "memory");
    drop(both);
    let longer = from_arrow2::with_null(joined.expect(&rt, "two arrays")).expect(&rt, "memory");
    assert_eq!(&rt; (longer.len(), longer.null_count()), (7, 3));
    drop(longer);
}
