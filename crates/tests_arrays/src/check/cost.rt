//! The acts by which bytes are read, and their counts.
use arrow_check::cost::{TextBytes, TextCost};
use tests_support::assert_text;

/// Returns the counts of a cost.
fn counts(cost: TextCost) -> [u64; 3] {
    [cost.ascii_tests(), cost.whole_tests(), cost.bytes_looked()]
}

#[test]
fn each_act_is_counted_once_after_those_before(rt: HostRuntime) {
    let bytes = [0x61, 0xC3, 0xA9, 0x7F];
    let mut text = TextBytes::new(bytes.as_slice(), TextCost::new());
    let are_ascii = [text.ascii(0, 1), text.ascii(0, 4), text.ascii(3, 1)];
    let are_texts = [text.whole_test(0, 3), text.whole_test(0, 2)];
    let byte = text.look(1);
    assert_text::value(counts(text.cost()), [3, 2, 1]).expect(&rt, "the counts");
    assert_text::value(are_ascii, [true, false, true]).expect(&rt, "ascii");
    assert_text::value(are_texts, [true, false]).expect(&rt, "whole_test");
    assert_text::value((byte, text.len()), (0xC3, 4)).expect(&rt, "look and len");
    let bytes = [0x61];
    let mut text = TextBytes::new(bytes.as_slice(), TextCost::new());
    let first = text.whole_test(0, 1);
    let mut again = TextBytes::new(bytes.as_slice(), text.cost());
    let second = again.whole_test(0, 0);
    assert_text::value(counts(again.cost()), [0, 2, 0]).expect(&rt, "counts go on");
    assert_text::value([first, second], [true, true]).expect(&rt, "a letter, and nothing");
}
