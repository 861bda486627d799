//! Laws of columns, called with the types of arrays of numbers. What they say is proved where they stand.
use arrow_column::laws::{
    bare_column, cut_of_cut, empty_cut, freeze_drops_mask, held_masks, mask_bits, no_mask,
    one_by_one, parts_again, push_then_pop, rows_by_parts, slot_by_value, slots_in_order,
};
use arrow_memory::buffer::Buffer;

#[test]
fn laws_are_callable() {
    cut_of_cut::<Buffer<i64>>();
    empty_cut::<(), i64>();
    mask_bits::<(), i64>();
    no_mask::<(), i64>();
    rows_by_parts::<(), i64>();
    parts_again::<(), i64>();
    held_masks::<(), i64>();
    slot_by_value::<(), i64>();
    freeze_drops_mask::<(), i64>();
    push_then_pop::<(), i64>();
    one_by_one::<(), i64, i64>();
    bare_column::<(), i64>();
    slots_in_order::<(), i64>();
}
