//! The host and the port of an address, as its text has them. No memory is taken.

ghost use Rattle.std.specs.Prelude.{◌≡◌, ◌==◌, ◌↔◌, ℕ, List, length, option_copied, map, if◌then◌else◌, IfSome, IsTrue, MatchOption, Some, None};
ghost use Rattle.std.specs.List.{list_all};
ghost use Rattle.std.specs.Char.{to_ascii_lowercase};
ghost use Rattle.mdb_base.specs.AddressReading.{after as after_name, number_of};
ghost use Rattle.mdb_base.specs.AddressRule.{is_name_byte, is_v6_byte, is_name_host, is_v6_host};
ghost use Rattle.mdb_base.specs.AddressText.{IsPort, EndsAs, EndsBracketed, IsPlain, IsBracketed, IsWritten};

use crate::address::has_colon;
use crate::address_rule::{is_name_byte as name_byte, is_v6_byte as v6_byte};
use crate::cutting::cut;
use itoa::Buffer;

// What stands after a name, where the text begins with it.
fn after<'a>(text: &'a str, name: &str) -> Option<&'a str>
    ensures { option_copied result ≡ after_name name.now text.now }
{
    text.strip_prefix(name)
}

fn number16(word: &str) -> Option<u16>
    ensures { result ≡ number_of 16 word.now }
{
    match word.parse::<u16>() {
        Ok(number) => Some(number),
        Err(_) => None,
    }
}

// The text is the port in decimal digits, which is not 0.
fn is_port(digits: &str, port: u16) -> bool
    ensures { IsTrue result ↔ IsPort digits.now port }
{
    let mut buffer = Buffer::new();
    1 <= port && digits == buffer.format(port)
}

fn port(digits: &str) -> Option<u16>
    ensures found { IfSome result (λ p. IsPort digits.now p) }
    ensures only { (p : ℕ) → IsPort digits.now p → result ≡ Some p }
{
    match number16(digits) {
        Some(port) if is_port(digits, port) => Some(port),
        _ => None,
    }
}

fn default_port(rest: &str) -> Option<u16>
    ensures { result ≡ if length rest.now == 0 then Some 27017 else None }
{
    if rest.is_empty() { Some(27017) } else { None }
}

fn port_behind(rest: &str) -> Option<u16>
    ensures found { IfSome result (λ p. EndsAs rest.now p) }
    ensures only { (p : ℕ) → EndsAs rest.now p → result ≡ Some p }
{
    match after(rest, ":") {
        Some(digits) => port(digits),
        None => default_port(rest),
    }
}

fn all_of_name(bytes: &[u8]) -> bool
    ensures { result ≡ list_all (λ b. is_name_byte (to_ascii_lowercase b)) bytes.now }
{
    bytes.iter().all(|b| name_byte(b.to_ascii_lowercase()))
}

fn all_of_v6(bytes: &[u8]) -> bool
    ensures { result ≡ list_all (λ b. is_v6_byte (to_ascii_lowercase b)) bytes.now }
{
    bytes.iter().all(|b| v6_byte(b.to_ascii_lowercase()))
}

#[tactic(auto, using(crate::proofs::AddressText::name_lowered))]
fn is_name(host: &str) -> bool
    ensures { result ≡ is_name_host (map to_ascii_lowercase host.now) }
{
    let bytes = host.as_bytes();
    1 <= bytes.len() && bytes.len() <= 255 && all_of_name(bytes)
}

#[tactic(auto, using(crate::proofs::AddressText::v6_lowered))]
fn is_v6(host: &str) -> bool
    ensures { result ≡ is_v6_host (map to_ascii_lowercase host.now) }
{
    let bytes = host.as_bytes();
    2 <= bytes.len() && bytes.len() <= 45 && all_of_v6(bytes) && has_colon(host)
}

// A name, and the port behind it.
fn plain(text: &str) -> Option<(&str, u16)>
    ensures found { IfSome result (λ x. IsPlain text.now x.0.now x.1) }
    ensures only { (h : List ℕ) (p : ℕ) → IsPlain text.now h p → MatchOption result ⊥ (λ x. (x.0.now ≡ h) × (x.1 ≡ p)) }
{
    let (host, rest) = cut(text, ':');
    if !is_name(host) {
        return None;
    }
    match port_behind(rest) {
        Some(port) => Some((host, port)),
        None => None,
    }
}

// What follows the closing bracket.
fn port_in_brackets(rest: &str) -> Option<u16>
    ensures found { IfSome result (λ p. EndsBracketed rest.now p) }
    ensures only { (p : ℕ) → EndsBracketed rest.now p → result ≡ Some p }
{
    match after(rest, "]") {
        Some(rest) => port_behind(rest),
        None => None,
    }
}

// What follows an opening bracket: an IPv6 address, and the port behind the closing bracket.
fn bracketed(text: &str) -> Option<(&str, u16)>
    ensures found { IfSome result (λ x. IsBracketed text.now x.0.now x.1) }
    ensures only { (h : List ℕ) (p : ℕ) → IsBracketed text.now h p → MatchOption result ⊥ (λ x. (x.0.now ≡ h) × (x.1 ≡ p)) }
{
    let (host, rest) = cut(text, ']');
    if !is_v6(host) {
        return None;
    }
    match port_in_brackets(rest) {
        Some(port) => Some((host, port)),
        None => None,
    }
}

/// The host and the port of an address in letters of any case.
pub(crate) fn read(text: &str) -> Option<(&str, u16)>
    ensures found { IfSome result (λ x. IsWritten text.now x.0.now x.1) }
    ensures only { (h : List ℕ) (p : ℕ) → IsWritten text.now h p → MatchOption result ⊥ (λ x. (x.0.now ≡ h) × (x.1 ≡ p)) }
{
    match after(text, "[") {
        Some(inner) => bracketed(inner),
        None => plain(text),
    }
}
