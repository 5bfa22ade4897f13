//! Fields of a line: a value behind a name, and what is left of the line.

ghost use Rattle.std.specs.Prelude.{◌≡◌, ◌<◌, ◌^◌, ◌++◌, ℕ, ℤ, List, decimal, FitsSigned};
ghost use Rattle.std.specs.Int.{w32};
ghost use Rattle.std.specs.Fmt.{signed_decimal};
ghost use Rattle.mdb_parts.specs.Reading.{Follows, GivesFirst};

use crate::line_error::LineError;
use crate::words::{field, number32, number64, signed32};

/// A number of 64 bits.
#[tactic(auto, using(crate::proofs::TextLemmas::decimal_lacks))]
pub fn u64_field<'a>(text: &'a str, name: &str) -> Result<(u64, &'a str), LineError>
    ensures { (n : ℕ) (rest : List ℕ) → n < 2 ^ 64 → Follows rest → text.now ≡ name.now ++ (decimal n ++ rest) → GivesFirst n rest result }
{
    let (word, rest) = field(text, name)?;
    let number = number64(word).ok_or(LineError::Bad)?;
    Ok((number, rest))
}

/// A number of 32 bits.
#[tactic(auto, using(crate::proofs::TextLemmas::decimal_lacks))]
pub fn u32_field<'a>(text: &'a str, name: &str) -> Result<(u32, &'a str), LineError>
    ensures { (n : ℕ) (rest : List ℕ) → n < 2 ^ 32 → Follows rest → text.now ≡ name.now ++ (decimal n ++ rest) → GivesFirst n rest result }
{
    let (word, rest) = field(text, name)?;
    let number = number32(word).ok_or(LineError::Bad)?;
    Ok((number, rest))
}

/// A number of 32 bits that may have a minus.
#[tactic(auto, using(crate::proofs::TextLemmas::signed_lacks))]
pub fn i32_field<'a>(text: &'a str, name: &str) -> Result<(i32, &'a str), LineError>
    ensures { (z : ℤ) (rest : List ℕ) → FitsSigned w32 z → Follows rest → text.now ≡ name.now ++ (signed_decimal z ++ rest) → GivesFirst z rest result }
{
    let (word, rest) = field(text, name)?;
    let number = signed32(word).ok_or(LineError::Bad)?;
    Ok((number, rest))
}
