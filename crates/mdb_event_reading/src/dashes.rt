//! Values that are printed as a dash where there is none, and truths.

ghost use Rattle.std.specs.Prelude.{◌≡◌, ◌<◌, ◌^◌, ℕ, Option, IfSome, Bool};
ghost use Rattle.mdb_base.specs.declared.object_id.ObjectId.{ObjectId};
ghost use Rattle.mdb_events.specs.Words.{number_or_dash, service_or_dash, truth};
ghost use Rattle.mdb_parts.specs.Types.{IsIdOfTypes};

use mdb_base::ObjectId;
use mdb_parts::values::id_word;
use mdb_parts::words::{number32, number64};

/// A number of 32 bits, or none.
pub fn narrow_or_dash(word: &str) -> Option<u32>
    ensures { (o : Option ℕ) → IfSome o (λ n. n < 2 ^ 32) → word.now ≡ number_or_dash o → result ≡ o }
{
    if word == "-" { None } else { number32(word) }
}

/// A number of 64 bits, or none.
pub fn wide_or_dash(word: &str) -> Option<u64>
    ensures { (o : Option ℕ) → IfSome o (λ n. n < 2 ^ 64) → word.now ≡ number_or_dash o → result ≡ o }
{
    if word == "-" { None } else { number64(word) }
}

/// A service's id, or none.
pub fn service_or_dash(word: &str) -> Option<ObjectId>
    ensures { (o : Option ObjectId) → IfSome o IsIdOfTypes → word.now ≡ service_or_dash o → result ≡ o }
{
    if word == "-" { None } else { id_word(word) }
}

/// A truth.
pub fn truth(word: &str) -> bool
    ensures { (b : Bool) → word.now ≡ truth b → result ≡ b }
{
    word == "true"
}
