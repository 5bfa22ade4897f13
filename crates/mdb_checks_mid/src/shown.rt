//! Cases of the reading of entries.

use mdb_cases::{Page, parted, small};
use mdb_entries::{Shown, ShownError, read_entry};

fn put_shown(page: &mut Page, shown: &Shown) {
    page.show(&shown.step.moment);
    page.put(" ");
    let facts = shown.facts.as_slice().len() as u64;
    page.show(&facts);
}

/// `shown N LINE`: what line N of a log shows. The answer is the moment of its step and how many facts it has, or `Bad`.
pub fn shown(page: &mut Page, given: &str) {
    let (place, line) = parted(given);
    let read = read_entry(page.alloc, line.as_bytes(), small(place));
    match &read {
        Ok(shown) => put_shown(page, shown),
        Err(ShownError::Bad) => page.put("Bad"),
        Err(ShownError::OutOfMemory) => page.fail(),
    }
    drop(read);
}
