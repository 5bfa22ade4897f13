//! Whether a case is answered as it is wanted.

use crate::page::Page;
use crate::words::parted;
use std::alloc::AllocError;
use std::io;

// Whether the pieces stand in the text in their order, the last one at its end.
fn ends_in_order(text: &str, pieces: &str, last: &str) -> bool {
    let mut rest = text;
    for piece in pieces.split(" ..") {
        match rest.split_once(piece) {
            Some((_, behind)) => rest = behind,
            None => return false,
        }
    }
    rest.ends_with(last)
}

// The text begins with the first piece; the others stand in it in their order, the last one at its end.
fn fits_pieces(found: &str, first: &str, pieces: &str) -> bool {
    let Some(rest) = found.strip_prefix(first) else {
        return false;
    };
    match pieces.rsplit_once(" ..") {
        Some((pieces, last)) => ends_in_order(rest, pieces, last),
        None => rest.ends_with(pieces),
    }
}

// Whether the text is what is wanted, where ` ..` stands for any text.
fn fits(found: &str, wanted: &str) -> bool {
    match wanted.split_once(" ..") {
        Some((first, pieces)) => fits_pieces(found, first, pieces),
        None => found == wanted,
    }
}

/// The kind of a case and what is given; none where the line is no case.
pub fn case_of(line: &str) -> Option<(&str, &str)> {
    match line.split_once(" => ") {
        Some((case, _)) => Some(parted(case)),
        None => None,
    }
}

fn is_well(line: &str, found: &str) -> bool {
    match line.split_once(" => ") {
        Some((_, wanted)) => fits(found, wanted),
        None => true,
    }
}

fn print_found<R: io::Print>(rt: &R, line: &str, found: &str) -> io::Result<()> {
    let (case, _) = line.split_once(" => ").unwrap_or((line, ""));
    println!(rt; "differs: {case} => {found}")
}

/// Prints the line where it is no case, or one that is answered on the page as it is wanted; where not, the case and what was found. The line is
/// given as it stands and with its texts in place. Where there was no memory for the answer it is an error.
pub fn tell<R: io::Print>(rt: &R, page: &Page, line: &str, spelled: &str) -> io::Result<()> {
    let found = page.told.as_str();
    if !page.is_whole {
        Err(AllocError.into())
    } else if is_well(spelled, found) {
        println!(rt; "{line}")
    } else {
        print_found(rt, line, found)
    }
}
