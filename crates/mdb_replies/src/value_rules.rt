//! Which values of a reply a line spells.

ghost use Rattle.std.specs.Prelude.{◌≡◌, IfOk, bytes_eq};
ghost use Rattle.std.specs.List.{list_all, list_any};
ghost use Rattle.mdb_parts.specs.WordRule.{keeps};
ghost use Rattle.mdb_replies.specs.Values.{is_tag, are_tags, is_address_text, all_different, are_hosts, is_natural};

use mdb_base::{AddressError, Items, OutOfMemory, ServerAddress, TagSet, Text};
use mdb_parts::word_rule::is_word;
use std::alloc::Global;

fn is_address_text(alloc: Global, text: &str) -> Result<bool, OutOfMemory>
    ensures { IfOk result (λ spelled. spelled ≡ is_address_text text.now) }
{
    match ServerAddress::parse(alloc, text) {
        Ok(address) => {
            let spelled = address.to_string(alloc)?;
            Ok(spelled.as_str() == text)
        }
        Err(AddressError::BadAddress) => Ok(false),
        Err(AddressError::OutOfMemory) => Err(OutOfMemory),
    }
}

/// The text, where it is there, is that of an address.
pub fn is_optional_address(alloc: Global, text: &Option<Text>) -> Result<bool, OutOfMemory>
    ensures { IfOk result (λ spelled. spelled ≡ keeps is_address_text text.now) }
{
    match text {
        Some(text) => is_address_text(alloc, text.as_str()),
        None => Ok(true),
    }
}

fn are_address_texts(alloc: Global, texts: &[Text]) -> Result<bool, OutOfMemory>
    ensures { IfOk result (λ spelled. spelled ≡ list_all is_address_text texts.now) }
{
    match texts {
        [] => Ok(true),
        [first, rest @ ..] => {
            if is_address_text(alloc, first.as_str())? {
                are_address_texts(alloc, rest)
            } else {
                Ok(false)
            }
        }
    }
}

fn has_text(texts: &[Text], text: &str) -> bool
    ensures { result ≡ list_any (λ t. bytes_eq t text.now) texts.now }
{
    texts.iter().any(|t| t.as_str() == text)
}

fn all_different(texts: &[Text]) -> bool
    ensures { result ≡ all_different texts.now }
{
    match texts {
        [] => true,
        [first, rest @ ..] => !has_text(rest, first.as_str()) && all_different(rest),
    }
}

#[tactic(auto, unfolding(crate::specs::Values::are_hosts))]
fn are_hosts(alloc: Global, hosts: &[Text]) -> Result<bool, OutOfMemory>
    ensures { IfOk result (λ spelled. spelled ≡ are_hosts hosts.now) }
{
    let count = hosts.len();
    if 1 <= count && count <= 128 && all_different(hosts) {
        are_address_texts(alloc, hosts)
    } else {
        Ok(false)
    }
}

/// The texts, where they are there, are 1 to 128 different addresses.
pub fn are_optional_hosts(alloc: Global, hosts: &Option<Items<Text>>) -> Result<bool, OutOfMemory>
    ensures { IfOk result (λ spelled. spelled ≡ keeps are_hosts hosts.now) }
{
    match hosts {
        Some(hosts) => are_hosts(alloc, hosts.as_slice()),
        None => Ok(true),
    }
}

fn is_tag(tag: &(Text, Text)) -> bool
    ensures { result ≡ is_tag tag.now }
{
    is_word(tag.0.as_str()) && is_word(tag.1.as_str())
}

fn all_tags(tags: &[(Text, Text)]) -> bool
    ensures { result ≡ list_all is_tag tags.now }
{
    tags.iter().all(|t| is_tag(t))
}

#[tactic(auto, unfolding(crate::specs::Values::are_tags))]
fn are_tags(tags: &TagSet) -> bool
    ensures { result ≡ are_tags tags.now }
{
    let pairs = tags.as_slice();
    1 <= pairs.len() && all_tags(pairs)
}

/// The tags, where they are there, are one at least, of words.
pub fn are_optional_tags(tags: &Option<TagSet>) -> bool
    ensures { result ≡ keeps are_tags tags.now }
{
    match tags {
        Some(tags) => are_tags(tags),
        None => true,
    }
}

/// The number, where it is there, is not negative.
pub fn is_optional_natural(number: Option<i32>) -> bool
    ensures { result ≡ keeps is_natural number }
{
    match number {
        Some(number) => 0 <= number,
        None => true,
    }
}

/// The number of a connection, where it is there, is not negative.
pub fn is_optional_id(number: Option<i64>) -> bool
    ensures { result ≡ keeps is_natural number }
{
    match number {
        Some(number) => 0 <= number,
        None => true,
    }
}
