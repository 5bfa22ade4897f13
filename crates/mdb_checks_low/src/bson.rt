//! Cases of mdb_bson.

use mdb_base::Doc;
use mdb_bson::{BsonError, read};
use mdb_cases::Page;

fn show(page: &mut Page, found: &Result<Doc, BsonError>) {
    match found {
        Ok(doc) => page.debug(doc),
        Err(BsonError::Bad(fault, place)) => {
            page.debug(fault);
            page.put(" ");
            page.show(place);
        }
        Err(BsonError::OutOfMemory) => page.fail(),
    }
}

/// `bson HEX`: the document that the bytes are, or the fault with the number of its byte.
pub fn answer(page: &mut Page, given: &str) {
    match hex::decode(page.alloc, given) {
        Ok(bytes) => {
            let found = read(page.alloc, &bytes);
            show(page, &found);
            drop(found);
        }
        Err(_) => page.put("malformed"),
    }
}
