//! The parts of an entry's line, which have bars between them.

ghost use Rattle.std.specs.Prelude.{◌≡◌, ◌<◌, ◌≤◌, ◌++◌, ◌∷◌, ℕ, List, drop, length, true, IfOk};
ghost use Rattle.mdb_entries.specs.Pieces.{barred};
ghost use Rattle.mdb_parts.specs.Reading.{lacks, GivesText};

use mdb_base::cut;
use mdb_parts::LineError;
use mdb_parts::words::after;

/// The first part, and what is left from the next bar on.
pub fn piece(text: &str) -> Result<(&str, &str), LineError>
    ensures found { IfOk result (λ x. length x.1.now ≤ length text.now) }
    ensures only { (word : List ℕ) (more : List (List ℕ)) → lacks 124 word ≡ true → text.now ≡ word ++ barred more → GivesText word (drop 1 (barred more)) result }
{
    let (front, rest) = cut(text, '|');
    if rest.is_empty() {
        return Ok((text, ""));
    }
    match front.strip_suffix(' ') {
        Some(word) => Ok((word, rest)),
        None => Err(LineError::Bad),
    }
}

/// The part behind a bar, and what is left from the next bar on.
pub fn next_piece(text: &str) -> Result<(&str, &str), LineError>
    ensures found { IfOk result (λ x. length x.1.now < length text.now) }
    ensures only { (word : List ℕ) (more : List (List ℕ)) → lacks 124 word ≡ true → text.now ≡ drop 1 (barred (word ∷ more)) → GivesText word (drop 1 (barred more)) result }
{
    match after(text, "| ") {
        Some(rest) => piece(rest),
        None => Err(LineError::Bad),
    }
}
