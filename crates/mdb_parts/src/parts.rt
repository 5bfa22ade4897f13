//! Optional parts of a line: a value behind a name, where the name is there, and what is left of the line. A value
//! that cannot be read is left out here, and then the line is not the spelling of what was read.

ghost use Rattle.std.specs.Prelude.{◌≡◌, ◌<◌, ◌^◌, ◌∷◌, ℕ, ℤ, List, Option, IfSome, decimal, option_map, option_copied, Bool, true, int_le, pos, FitsSigned};
ghost use Rattle.std.specs.Int.{w64};
ghost use Rattle.std.specs.Fmt.{signed_decimal};
ghost use Rattle.mdb_base.specs.Spelling.{object_id};
ghost use Rattle.mdb_base.specs.declared.object_id.ObjectId.{ObjectId};
ghost use Rattle.mdb_parts.specs.Parts.{Part, parts_text, may_follow, flag};
ghost use Rattle.mdb_parts.specs.Types.{IsIdOfTypes};
ghost use Rattle.mdb_parts.specs.Reading.{lacks, Gives, GivesFirst};

use crate::line_error::LineError;
use crate::values::id_word;
use crate::words::{after, number32, number64, signed64};
use mdb_base::{ObjectId, Text, cut};
use std::alloc::Global;

/// The word of a part, if its name is there.
pub fn part<'a>(text: &'a str, name: &str) -> (Option<&'a str>, &'a str)
    ensures { (o : Option (List ℕ)) (ps : List Part) → IfSome o (λ w. lacks 32 w ≡ true) → may_follow name.now ps ≡ true → text.now ≡ parts_text ((name.now, o) ∷ ps)
        → (option_copied result.0 ≡ o) × (result.1.now ≡ parts_text ps) }
{
    match after(text, name) {
        None => (None, text),
        Some(rest) => {
            let (word, left) = cut(rest, ' ');
            (Some(word), left)
        }
    }
}

fn optional_number32(word: Option<&str>) -> Option<u32>
    ensures { (o : Option ℕ) → IfSome o (λ n. n < 2 ^ 32) → option_copied word.entry ≡ option_map decimal o → result ≡ o }
{
    match word {
        None => None,
        Some(word) => number32(word),
    }
}

fn optional_number64(word: Option<&str>) -> Option<u64>
    ensures { (o : Option ℕ) → IfSome o (λ n. n < 2 ^ 64) → option_copied word.entry ≡ option_map decimal o → result ≡ o }
{
    match word {
        None => None,
        Some(word) => number64(word),
    }
}

fn optional_signed64(word: Option<&str>) -> Option<i64>
    ensures { (o : Option ℤ) → IfSome o (λ z. FitsSigned w64 z × (int_le (pos 0) z ≡ true)) → option_copied word.entry ≡ option_map signed_decimal o → result ≡ o }
{
    match word {
        None => None,
        Some(word) => signed64(word),
    }
}

fn optional_id_word(word: Option<&str>) -> Option<ObjectId>
    ensures { (o : Option ObjectId) → IfSome o IsIdOfTypes → option_copied word.entry ≡ option_map object_id o → result ≡ o }
{
    match word {
        None => None,
        Some(word) => id_word(word),
    }
}

fn optional_text(alloc: Global, word: Option<&str>) -> Result<Option<Text>, LineError>
    ensures { Gives (option_copied word.entry) result }
{
    match word {
        None => Ok(None),
        Some(word) => Ok(Some(Text::new(String::from_str(alloc, word)?))),
    }
}

fn is_there(word: Option<&str>) -> bool
    ensures { (b : Bool) → option_copied word.entry ≡ flag b → result ≡ b }
{
    match word {
        None => false,
        Some(_) => true,
    }
}

/// A number of 32 bits.
#[tactic(auto, using(crate::proofs::PartLemmas::words_lack))]
pub fn u32_part<'a>(text: &'a str, name: &str) -> (Option<u32>, &'a str)
    ensures { (o : Option ℕ) (ps : List Part) → IfSome o (λ n. n < 2 ^ 32) → may_follow name.now ps ≡ true → text.now ≡ parts_text ((name.now, option_map decimal o) ∷ ps)
        → (result.0 ≡ o) × (result.1.now ≡ parts_text ps) }
{
    let (word, left) = part(text, name);
    (optional_number32(word), left)
}

/// A number of 64 bits.
#[tactic(auto, using(crate::proofs::PartLemmas::words_lack))]
pub fn u64_part<'a>(text: &'a str, name: &str) -> (Option<u64>, &'a str)
    ensures { (o : Option ℕ) (ps : List Part) → IfSome o (λ n. n < 2 ^ 64) → may_follow name.now ps ≡ true → text.now ≡ parts_text ((name.now, option_map decimal o) ∷ ps)
        → (result.0 ≡ o) × (result.1.now ≡ parts_text ps) }
{
    let (word, left) = part(text, name);
    (optional_number64(word), left)
}

/// A number of 64 bits, one bit of which is for its sign.
#[tactic(auto, using(crate::proofs::PartLemmas::words_lack))]
pub fn i64_part<'a>(text: &'a str, name: &str) -> (Option<i64>, &'a str)
    ensures { (o : Option ℤ) (ps : List Part) → IfSome o (λ z. FitsSigned w64 z × (int_le (pos 0) z ≡ true)) → may_follow name.now ps ≡ true → text.now ≡ parts_text ((name.now, option_map signed_decimal o) ∷ ps)
        → (result.0 ≡ o) × (result.1.now ≡ parts_text ps) }
{
    let (word, left) = part(text, name);
    (optional_signed64(word), left)
}

/// An object id.
#[tactic(auto, using(crate::proofs::PartLemmas::words_lack))]
pub fn id_part<'a>(text: &'a str, name: &str) -> (Option<ObjectId>, &'a str)
    ensures { (o : Option ObjectId) (ps : List Part) → IfSome o IsIdOfTypes → may_follow name.now ps ≡ true → text.now ≡ parts_text ((name.now, option_map object_id o) ∷ ps)
        → (result.0 ≡ o) × (result.1.now ≡ parts_text ps) }
{
    let (word, left) = part(text, name);
    (optional_id_word(word), left)
}

/// A word of any bytes but spaces.
pub fn text_part<'a>(
    alloc: Global,
    text: &'a str,
    name: &str,
) -> Result<(Option<Text>, &'a str), LineError>
    ensures { (o : Option (List ℕ)) (ps : List Part) → IfSome o (λ w. lacks 32 w ≡ true) → may_follow name.now ps ≡ true → text.now ≡ parts_text ((name.now, o) ∷ ps)
        → GivesFirst o (parts_text ps) result }
{
    let (word, left) = part(text, name);
    let held = optional_text(alloc, word)?;
    Ok((held, left))
}

/// A name with no value behind it: whether it is there.
#[tactic(auto, using(crate::proofs::PartLemmas::words_lack))]
pub fn flag_part<'a>(text: &'a str, name: &str) -> (bool, &'a str)
    ensures { (b : Bool) (ps : List Part) → may_follow name.now ps ≡ true → text.now ≡ parts_text ((name.now, flag b) ∷ ps)
        → (result.0 ≡ b) × (result.1.now ≡ parts_text ps) }
{
    let (word, left) = part(text, name);
    (is_there(word), left)
}
