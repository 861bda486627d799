//! Text: where bytes can be cut into it.
use super::*;

/// A name, offsets, bytes, and the texts between the offsets.
const CUTS: &[(&str, &[usize], &[u8], &str)] = &[
    ("accents", &[0, 2, 4], ACCENTS, r#"["é" "è"]"#),
    ("no byte in an accent", &[1, 1], ACCENTS, r#"[""]"#),
    ("no byte behind four", &[0, 4, 4], FOUR, r#"["😀" ""]"#),
    ("no byte in four", &[2, 2, 2], FOUR, r#"["" ""]"#),
    ("around", &[1, 2, 3], b"\xFFab\xFF", r#"["a" "b"]"#),
    ("behind", &[0, 1], b"a\xFF", r#"["a"]"#),
    ("no slot", &[2], b"\xFF\xFF\xFF", "[]"),
    ("nothing", &[0], b"", "[]"),
];

/// Compares the texts of arrays.
fn check_cut<O: Offset>(rt: &(impl Abort + AllocGlobal)) {
    for (index, (case, offsets, bytes, expected)) in CUTS.iter().enumerate() {
        let array = own_array::<Utf8, O>(rt, (*offsets, *bytes, "none"));
        let name = row_of(*case, offset_name::<O>(), index);
        assert_text::items(array.values_iter(), *expected).expect(rt, name.as_str());
        drop(array);
    }
}

/// A name, bytes, and a `1` for each index at which they can be cut into two texts.
const CUT_AT: &[(&str, &[u8], &str)] = &[
    ("one byte each", b"abc", "1111"),
    ("two bytes each", ACCENTS, "10101"),
    ("three bytes and one", b"\xE2\x82\xACa", "10011"),
    ("four bytes", FOUR, "10001"),
    ("a character that ends early", b"a\xC3", "000"),
    ("a byte of no character", b"\xFFa", "000"),
    ("a surrogate", b"\xED\xA0\x80", "0000"),
    ("above the last character", b"\xF4\x90\x80\x80", "00000"),
];

/// Compares the answers to bytes that are cut into two slots, at each index.
fn check_cuts_at_each_index<O: Offset>(rt: &(impl Abort + AllocGlobal)) {
    for (at, (case, bytes, marks)) in CUT_AT.iter().enumerate() {
        let name = row_of(*case, offset_name::<O>(), at);
        for (index, mark) in marks.as_bytes().iter().enumerate() {
            let offsets = frozen_offsets(rt.alloc(), [0, index, bytes.len()].as_slice());
            let offsets = offsets.expect(rt, "offsets");
            let values = buffer_of(rt.alloc(), *bytes).expect(rt, "memory");
            let data_type = ByteArray::<Utf8, O>::default_data_type();
            let came = tells(ByteArray::<Utf8, O>::try_new(data_type, offsets, values, None));
            let expected = if *mark == b'1' { "made" } else { NO_TEXT };
            assert_text::value((index, came), (index, expected)).expect(rt, name.as_str());
        }
    }
}

#[test]
fn each_slot_is_text_by_itself_and_cut_between_characters(rt: HostRuntime) {
    for_each_offset!(check_cut, &rt);
    for_each_offset!(check_cuts_at_each_index, &rt);
}
