//! The words of a line, with what is left behind them.

use itoa::Buffer;

/// Where in a line the rest of it begins, counted from 1.
pub(crate) fn column(line: &str, rest: &str) -> usize {
    line.len().saturating_sub(rest.len()).saturating_add(1)
}

/// The word up to the next space, and what stands behind that space, if there is one.
pub(crate) fn cut_word(text: &str) -> (&str, Option<&str>) {
    match text.split_once(' ') {
        Some((word, rest)) => (word, Some(rest)),
        None => (text, None),
    }
}

/// A number without a sign and without leading zeros.
pub(crate) fn number(word: &str) -> Option<u64> {
    let mut buffer = Buffer::new();
    match word.parse::<u64>() {
        Ok(number) if buffer.format(number) == word => Some(number),
        _ => None,
    }
}
