//! The name that a misspelled word is nearest to.

use mdb_base::OutOfMemory;
use std::alloc::Global;
use strsim::osa_distance;

/// The first of the names that are fewest edits away from the word, if that is at most two and less than half of its length.
pub fn nearest<'a>(
    alloc: Global,
    word: &str,
    names: &[&'a str],
) -> Result<Option<&'a str>, OutOfMemory> {
    let mut best = word.len().saturating_add(1).div_euclid(2).min(3);
    let mut found = None;
    for name in names {
        let edits = osa_distance(alloc, word, name)?;
        if edits < best {
            best = edits;
            found = Some(*name);
        }
    }
    Ok(found)
}
