//! Bytes that stand nowhere in a line.

// What a byte is that is not printable, at this place of the line.
fn name_of(byte: u8, is_last: bool) -> &'static str {
    match byte {
        b'\r' if is_last => "this line ends in a carriage return: lines end in a newline alone",
        b'\t' => "a tab: one space stands between two words",
        0 => "a byte 0: this is no text",
        _ => "a byte that is no printable ASCII character",
    }
}

// Where two spaces stand side by side, or one at an end, counted from 1. The text of an error, behind ` msg=`, has spaces anywhere.
fn spare_space(line: &[u8]) -> Option<usize> {
    let mut before = b' ';
    let mut place = 0usize;
    for byte in line {
        place = place.saturating_add(1);
        if *byte == b' ' && before == b' ' {
            return Some(place);
        }
        before = *byte;
    }
    if before == b' ' && place > 0 {
        Some(place)
    } else {
        None
    }
}

/// The column of the first byte that is not printable, counted from 1, or that of a space too many, and what is wrong.
pub(crate) fn bad_byte(line: &[u8], number: u32) -> Option<(usize, &'static str)> {
    if line.is_empty() {
        return Some((1, "an empty line: each line is a step"));
    }
    if number == 1 && line.starts_with(b"\xef\xbb\xbf") {
        return Some((1, "a byte order mark: a script begins with `open`"));
    }
    let mut column = 0usize;
    for byte in line {
        column = column.saturating_add(1);
        if *byte < 32 || 126 < *byte {
            return Some((column, name_of(*byte, column == line.len())));
        }
    }
    None
}

/// Where a space too many stands in a line of which no part is the text of an error, and what is wrong there.
pub(crate) fn bad_space(line: &str) -> Option<(usize, &'static str)> {
    match spare_space(line.as_bytes()) {
        Some(column) => Some((
            column,
            "a space too many: one stands between two words, and none at either end",
        )),
        None => None,
    }
}
