//! Names and texts.

ghost use Rattle.std.specs.Prelude.{◌≡◌, ◌≤◌, length, option_map};
ghost use Rattle.mdb_bson.specs.Reading.{Gives, utf8, ended, name_len, name, string};

use crate::fault::{Fault, Stop};
use crate::front::length_at;

// The bytes as a text, where they are one.
fn utf8(bytes: &[u8]) -> Option<&str>
    ensures { option_map (λ text. text.now) result ≡ utf8 bytes.now }
{
    match str::from_utf8(bytes) {
        Ok(text) => Some(text),
        Err(_) => None,
    }
}

// A text of so many bytes, behind which a zero byte stands.
#[tactic(auto, unfolding(crate::specs::Reading::ended))]
fn ended(bytes: &[u8], count: usize) -> Result<(&str, &[u8]), Stop>
    requires { count ≤ length bytes.now }
    ensures { Gives (λ x. (x.0.now, x.1.now)) result (ended count bytes.now) }
{
    let (own, rest) = bytes.split_at(count);
    match rest {
        [0, after @ ..] => match utf8(own) {
            Some(text) => Ok((text, after)),
            None => Err(Stop::Bad(Fault::Utf8, bytes.len())),
        },
        _ => Err(Stop::Bad(Fault::Zero, rest.len())),
    }
}

// How many bytes stand before the first zero byte.
fn name_len(bytes: &[u8]) -> usize
    ensures len { result ≡ name_len bytes.now }
    ensures within { result ≤ length bytes.now }
{
    let mut count = 0;
    while count < bytes.len() && bytes[count] != 0 {
        count += 1;
    }
    count
}

/// A name: a text that its first zero byte ends.
pub fn name(bytes: &[u8]) -> Result<(&str, &[u8]), Stop>
    ensures { Gives (λ x. (x.0.now, x.1.now)) result (name bytes.now) }
{
    ended(bytes, name_len(bytes))
}

/// A text behind its length, which counts the zero byte at its end.
#[tactic(auto, unfolding(crate::specs::Reading::string))]
pub fn string(bytes: &[u8]) -> Result<(&str, &[u8]), Stop>
    ensures { Gives (λ x. (x.0.now, x.1.now)) result (string bytes.now) }
{
    let (count, rest) = length_at(bytes)?;
    let count = count as usize;
    if count == 0 || rest.len() < count {
        return Err(Stop::Bad(Fault::Length, bytes.len()));
    }
    ended(rest, count - 1)
}
