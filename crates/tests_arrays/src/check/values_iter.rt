//! The iterator over an array's items, and an array of the tests' own.
use arrow_check::accessor::ArrayAccessor;
use arrow_check::values_iter::ArrayValuesIter;
use arrow_memory::bitmap::MutableBitmap;
use arrow_memory::list_iter::ListIter;
use arrow_memory::zip_validity::ZipValidity;
use tests_support::assert_text;

/// An array of numbers.
#[derive(Drop)]
struct Numbers {
    numbers: [u64; 3],
}

impl<'a> ArrayAccessor<'a> for Numbers {
    ghost use Rattle.std.specs.Prelude.{◌≡◌, ◌<◌, ℕ, length, slice_get, Some};

    type Item = &'a u64;

    ghost Seen = { ℕ };

    ghost seen = { λ item. item.now };

    ghost items = { λ array. array.numbers };

    fn value(&'a self, index: usize) -> &'a u64
        requires { index < length self.now.numbers }
        ensures { slice_get self.now.numbers index ≡ Some result.now }
    {
        &self.numbers[index]
    }

    fn len(&self) -> usize
        ensures { result ≡ length self.now.numbers }
    {
        3
    }
}

const TENS: Numbers = Numbers {
    numbers: [10, 20, 30],
};

#[test]
fn items_of_arrays_and_ranges_come_from_both_ends(rt: HostRuntime) {
    let mut items = ArrayValuesIter::new(&TENS);
    let came = (items.len(), items.next(), items.next_back());
    assert_text::value(came, (3, Some(&10), Some(&30))).expect(&rt, "both ends");
    let left = (items.len(), items.size_hint());
    assert_text::value(left, (1, (1, Some(1)))).expect(&rt, "one item left");
    let came = (items.nth(0), items.next(), items.next_back(), items.len());
    assert_text::value(came, (Some(&20), None, None, 0)).expect(&rt, "the last item, the end");
    assert!(rt; TENS.len() == 3);
    let mut last = ArrayValuesIter::new_range(&TENS, 1, 2);
    let came = (last.len(), last.next_back(), last.next(), last.next());
    assert_text::value(came, (2, Some(&30), Some(&20), None)).expect(&rt, "the last two");
    let mut first = ArrayValuesIter::new_range(&TENS, 0, 1);
    let mut none = ArrayValuesIter::new_range(&TENS, 3, 0);
    let came = [first.next(), first.next(), none.next()];
    assert_text::value(came, [Some(&10), None, None]).expect(&rt, "the first, and none");
}

#[test]
fn items_are_skipped_up_to_the_end_and_a_clone_goes_on_alone(rt: HostRuntime) {
    let mut items = ArrayValuesIter::new(&TENS);
    let came = [items.nth(2), items.next()];
    assert_text::value(came, [Some(&30), None]).expect(&rt, "two of three");
    let mut items = ArrayValuesIter::new(&TENS);
    let came = [items.nth(3), items.next_back()];
    assert_text::value(came, [None, None]).expect(&rt, "three of three");
    let mut items = ArrayValuesIter::new(&TENS);
    let came = (items.next(), items.nth(usize::MAX), items.len());
    assert_text::value(came, (Some(&10), None, 0)).expect(&rt, "more than all");
    let mut items = ArrayValuesIter::new(&TENS);
    let first = items.next();
    let mut others = items.clone();
    let came = (first, items.nth(1), items.next());
    assert_text::value(came, (Some(&10), Some(&30), None)).expect(&rt, "the first");
    let came = (others.len(), others.next(), others.next(), others.next());
    assert_text::value(came, (2, Some(&20), Some(&30), None)).expect(&rt, "the clone");
}

/// The numbers as values under marks: another crate's trait is not given to another crate's iterator,
/// so the crate of an array wraps it.
#[derive(Drop)]
struct NumberValues<'a> {
    items: ArrayValuesIter<'a, Numbers>,
}

impl<'a> ListIter for NumberValues<'a> {
    ghost use Rattle.arrow_check.specs.Items.{IsWithin, rest_of};

    type Item = &'a u64;

    type Seen = u64;

    ghost seen = { λ item. item.now };

    ghost rest = { λ values. rest_of (λ array. array.numbers) values.items };

    ghost can_take = { λ values. IsWithin (λ array. array.numbers) values.items };

    fn take_first(&mut self) -> Option<&'a u64> {
        self.items.next()
    }

    fn take_last(&mut self) -> Option<&'a u64> {
        self.items.next_back()
    }

    fn count_left(&self) -> usize {
        self.items.len()
    }
}

#[test]
fn items_stand_under_marks(rt: HostRuntime) {
    let marks = MutableBitmap::from_slice(rt.alloc(), [true, false, true].as_slice());
    let marks = marks.expect(&rt, "memory");
    let items = ArrayValuesIter::new(&TENS);
    assert!(rt; marks.len() == items.len());
    let mut slots = ZipValidity::new(NumberValues { items }, Some(marks.iter()));
    let ends = [slots.next_back(), slots.next()];
    assert_text::value(ends, [Some(Some(&30)), Some(Some(&10))]).expect(&rt, "both ends");
    assert_text::value(slots.size_hint(), (1, Some(1))).expect(&rt, "slots left");
    let came = [slots.next_back(), slots.next(), slots.next_back()];
    assert_text::value(came, [Some(None), None, None]).expect(&rt, "the null between");
    drop(marks);
}
