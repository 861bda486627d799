//! Where a record stands in a text, for the line of an error, since the CSV reader counts lines by line feeds alone.
//! Only tested.

/// Returns the line, from 1, on which a record begins that is read from `byte` on: ends of lines are skipped before it,
/// and a byte order mark. A line ends with a line feed, a carriage return, or both in this order.
pub fn line_of(text: &[u8], byte: u64) -> u64 {
    let is_marked = text.starts_with(b"\xEF\xBB\xBF");
    let begin = if is_marked { byte.max(3) } else { byte };
    let mut line = 1u64;
    let mut is_after_cr = false;
    for (at, b) in text.iter().enumerate() {
        let is_end = *b == b'\r' || *b == b'\n' && !is_after_cr;
        is_after_cr = *b == b'\r';
        if is_end {
            line = line.saturating_add(1);
        } else if *b != b'\n' && at as u64 >= begin {
            return line;
        }
    }
    line
}
