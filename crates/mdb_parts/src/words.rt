//! Words of a line: names, what stands up to a space, and numbers.

ghost use Rattle.std.specs.Prelude.{◌≡◌, ◌<◌, ◌^◌, ◌++◌, ℕ, List, decimal, option_copied, true, ℤ, pos, int_le, FitsSigned, MatchResult};
ghost use Rattle.std.specs.Int.{w32, w64};
ghost use Rattle.std.specs.Fmt.{signed_decimal};
ghost use Rattle.mdb_base.specs.AddressReading.{after as after_name};
ghost use Rattle.mdb_parts.specs.declared.line_error.LineError.TheVariants.{OutOfMemory as NoMemory};
ghost use Rattle.mdb_parts.specs.Reading.{lacks, Follows, GivesText};

use crate::line_error::LineError;
use mdb_base::cut;

/// What stands after a name, where the text begins with it.
pub fn after<'a>(text: &'a str, name: &str) -> Option<&'a str>
    ensures { option_copied result ≡ after_name name.now text.now }
{
    text.strip_prefix(name)
}

/// A word behind a name, and what is left from the next space on.
pub fn field<'a>(text: &'a str, name: &str) -> Result<(&'a str, &'a str), LineError>
    ensures { (word rest : List ℕ) → lacks 32 word ≡ true → Follows rest → text.now ≡ name.now ++ (word ++ rest) → GivesText word rest result }
{
    match after(text, name) {
        Some(rest) => Ok(cut(rest, ' ')),
        None => Err(LineError::Bad),
    }
}

/// The last word, behind a name: all that is left.
pub fn last<'a>(text: &'a str, name: &str) -> Result<&'a str, LineError>
    ensures { (word : List ℕ) → text.now ≡ name.now ++ word → MatchResult result (λ x. x.now ≡ word) (λ e. e ≡ NoMemory) }
{
    match after(text, name) {
        Some(word) => Ok(word),
        None => Err(LineError::Bad),
    }
}

/// A number of 64 bits, if the word is one.
pub fn number64(word: &str) -> Option<u64>
    ensures { (n : ℕ) → n < 2 ^ 64 → word.now ≡ decimal n → result ≡ Some n }
{
    match word.parse::<u64>() {
        Ok(number) => Some(number),
        Err(_) => None,
    }
}

/// A number of 32 bits, if the word is one.
pub fn number32(word: &str) -> Option<u32>
    ensures { (n : ℕ) → n < 2 ^ 32 → word.now ≡ decimal n → result ≡ Some n }
{
    match word.parse::<u32>() {
        Ok(number) => Some(number),
        Err(_) => None,
    }
}

/// A number of 32 bits that may have a minus, if the word is one.
pub fn signed32(word: &str) -> Option<i32>
    ensures { (z : ℤ) → FitsSigned w32 z → word.now ≡ signed_decimal z → result ≡ Some z }
{
    match word.parse::<i32>() {
        Ok(number) => Some(number),
        Err(_) => None,
    }
}

/// A number of 64 bits, one of which is for its sign, if the word is one.
pub fn signed64(word: &str) -> Option<i64>
    ensures { (z : ℤ) → FitsSigned w64 z → int_le (pos 0) z ≡ true → word.now ≡ signed_decimal z → result ≡ Some z }
{
    match word.parse::<i64>() {
        Ok(number) => Some(number),
        Err(_) => None,
    }
}
