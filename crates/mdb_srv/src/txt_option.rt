//! The options that a TXT record may set, and how a part of its text is read.
ghost use Rattle.std.specs.Prelude.{◌≡◌, IfOk, IfErr, Ok};

use super::SrvError;
use super::pair::pair;
use super::refusals::{not_a_flag, not_a_pair, unknown_key};
use mdb_base::Text;
use std::alloc::{AllocError, Global};

/// One option of a TXT record.
#[derive(Debug, Drop)]
pub enum TxtOption {
    AuthSource(Text),
    ReplicaSet(Text),
    LoadBalanced(bool),
}

impl TxtOption {
    ghost use Rattle.mdb_srv.specs.Answers.{Refuses};
    ghost use Rattle.mdb_srv.specs.Txt.{option_of, keyed_option, flag_option};

    // The option that a part `key=value` of a TXT record sets.
    pub(crate) fn read(alloc: Global, part: &str) -> Result<TxtOption, SrvError>
        ensures found { IfOk result (λ option. option_of part.now ≡ Ok option) }
        ensures refused { IfErr result (Refuses (option_of part.now)) }
    {
        let Some((key, value)) = pair(part) else {
            return Err(not_a_pair(alloc, part));
        };
        let key = key.to_ascii_lowercase(alloc)?;
        TxtOption::of(alloc, key.as_str(), value)
    }

    // The option with this key in small letters.
    fn of(alloc: Global, key: &str, value: &str) -> Result<TxtOption, SrvError>
        ensures found { IfOk result (λ option. keyed_option key.now value.now ≡ Ok option) }
        ensures refused { IfErr result (Refuses (keyed_option key.now value.now)) }
    {
        if key == "authsource" {
            return Ok(TxtOption::AuthSource(text(alloc, value)?));
        }
        if key == "replicaset" {
            return Ok(TxtOption::ReplicaSet(text(alloc, value)?));
        }
        if key == "loadbalanced" {
            return TxtOption::flag(alloc, value);
        }
        Err(unknown_key(alloc, key))
    }

    // A flag by its word.
    fn flag(alloc: Global, value: &str) -> Result<TxtOption, SrvError>
        ensures found { IfOk result (λ option. flag_option value.now ≡ Ok option) }
        ensures refused { IfErr result (Refuses (flag_option value.now)) }
    {
        if value == "true" {
            return Ok(TxtOption::LoadBalanced(true));
        }
        if value == "false" {
            return Ok(TxtOption::LoadBalanced(false));
        }
        Err(not_a_flag(alloc, value))
    }
}

// A text of its own.
fn text(alloc: Global, words: &str) -> Result<Text, AllocError>
    ensures { IfOk result (λ text. text ≡ words.now) }
{
    Ok(Text::new(String::from_str(alloc, words)?))
}
