//! The members of an object.

ghost use Rattle.std.specs.Prelude.{◌≡◌, option_map};
ghost use Rattle.json.specs.Value.{value_view};
ghost use Rattle.mdb_recording_lines.specs.LineForms.{caller_at, flag_at, has_text, member, number_at, number_or, text_at, time_at};

use crate::number::{micros, whole};
use json::Value;

/// A member. One that is null is not there.
pub fn member<'v, 'a>(object: &'v Value<'a>, key: &str) -> Option<&'v Value<'a>>
    ensures { option_map (λ m. value_view m.now) result ≡ member key.now (value_view object.now) }
{
    match object.get(key) {
        Some(found) => { if found.is_null() { None } else { Some(found) } }
        None => None,
    }
}

/// The text of a member.
pub fn text_at<'a>(object: &Value<'a>, key: &str) -> Option<&'a str>
    ensures { option_map (λ s. s.now) result ≡ text_at key.now (value_view object.now) }
{
    object.get(key)?.as_str()
}

/// The whole number of a member.
pub fn number_at(object: &Value<'_>, key: &str) -> Option<u64>
    ensures { result ≡ number_at key.now (value_view object.now) }
{
    whole(object.get(key)?.as_number()?.as_bytes())
}

/// The whole number of a member, or this one where it has no such member.
pub fn number_or(object: &Value<'_>, key: &str, other: u64) -> Option<u64>
    ensures { result ≡ number_or key.now other (value_view object.now) }
{
    match member(object, key) {
        Some(found) => whole(found.as_number()?.as_bytes()),
        None => Some(other),
    }
}

/// Whether a member is true, which it is not where there is none: nothing where it is neither true nor false.
pub fn flag_at(object: &Value<'_>, key: &str) -> Option<bool>
    ensures { result ≡ flag_at key.now (value_view object.now) }
{
    match member(object, key) {
        Some(found) => found.as_bool(),
        None => Some(false),
    }
}

pub fn has_text(object: &Value<'_>, key: &str) -> bool
    ensures { result ≡ has_text key.now (value_view object.now) }
{
    text_at(object, key).is_some()
}

/// When it came, in microseconds, if it says so: nothing where `t` is no number of seconds.
pub fn time_at(object: &Value<'_>) -> Option<Option<u64>>
    ensures { result ≡ time_at (value_view object.now) }
{
    match member(object, "t") {
        None => Some(None),
        Some(found) => {
            let at = micros(found.as_number()?)?;
            Some(Some(at))
        }
    }
}

/// The number of the check-out that it concerns, if it has one: nothing where `caller` is no whole number.
pub fn caller_at(object: &Value<'_>) -> Option<Option<u64>>
    ensures { result ≡ caller_at (value_view object.now) }
{
    match member(object, "caller") {
        None => Some(None),
        Some(found) => {
            let caller = whole(found.as_number()?.as_bytes())?;
            Some(Some(caller))
        }
    }
}
