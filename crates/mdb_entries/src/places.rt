//! A pool and a connection with a dot between.

ghost use Rattle.std.specs.Prelude.{◌≡◌, ◌<◌, ◌^◌, ◌++◌, ℕ, Some, codes};
ghost use Rattle.mdb_lines.specs.LogText.{connection_text};
ghost use Rattle.mdb_parts.specs.Reading.{Gives};

use mdb_base::cut;
use mdb_parts::LineError;
use mdb_parts::words::{after, last, number32};

fn pair(pool: Option<u32>, id: Option<u32>) -> Option<(u32, u32)>
    ensures { (p c : ℕ) → pool ≡ Some p → id ≡ Some c → result ≡ Some (p, c) }
{
    match (pool, id) {
        (Some(pool), Some(id)) => Some((pool, id)),
        _ => None,
    }
}

fn place_word(word: &str) -> Option<(u32, u32)>
    ensures { (p c : ℕ) → p < 2 ^ 32 → c < 2 ^ 32 → word.now ≡ connection_text p c → result ≡ Some (p, c) }
{
    let (front, rest) = cut(word, '.');
    match after(rest, ".") {
        Some(digits) => pair(number32(front), number32(digits)),
        None => None,
    }
}

/// The numbers of a pool and of one of its connections, behind a space.
pub fn place(text: &str) -> Result<(u32, u32), LineError>
    ensures { (p c : ℕ) → p < 2 ^ 32 → c < 2 ^ 32 → text.now ≡ codes " " ++ connection_text p c → Gives (p, c) result }
{
    let word = last(text, " ")?;
    place_word(word).ok_or(LineError::Bad)
}
