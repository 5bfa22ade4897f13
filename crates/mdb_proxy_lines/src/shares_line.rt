//! The first line of a proxy script: the shares of its tenants.

ghost use Rattle.std.specs.Prelude.{◌≡◌, ◌<◌, ◌≤◌, ℕ, List, length, decimal, true, IfOk, IsTrue, MatchResult, ◌&&◌, nat_lt, nat_le};
ghost use Rattle.std.specs.List.{list_all};
ghost use Rattle.mdb_lines.specs.Grammar.{is_printable};
ghost use Rattle.mdb_parts.specs.Parts.{commas};
ghost use Rattle.mdb_parts.specs.Reading.{Gives};
ghost use Rattle.mdb_parts.specs.declared.line_error.LineError.TheVariants.{OutOfMemory as NoMemory};
ghost use Rattle.mdb_proxy_lines.specs.ProxyLines.{is_share, shares_text, SpellsShares};

use mdb_base::OutOfMemory;
use mdb_parts::LineError;
use mdb_parts::words::{last, number32};
use std::alloc::Global;
use std::fmt;

// Numbers, each but the first behind a comma.
#[derive(Drop)]
struct NumbersText<'a>(&'a [u32]);

impl fmt::Display for NumbersText<'_> {
    ghost use Rattle.std.specs.Prelude.{Some};
    ghost use Rattle.std.specs.Prelude.{decimal};
    ghost use Rattle.mdb_parts.specs.Parts.{commas};

    ghost output = { λ x. Some (commas decimal x.0.now) };

    fn fmt<W: fmt::Write>(&self, f: &mut fmt::Formatter<W>) -> fmt::Result {
        match self.0.split_first() {
            None => Ok(()),
            Some((first, more)) => {
                let more = MoreText(more);
                write!(f, "{first}{more}")
            }
        }
    }
}

// Numbers, each behind a comma.
#[derive(Drop)]
struct MoreText<'a>(&'a [u32]);

impl fmt::Display for MoreText<'_> {
    ghost use Rattle.std.specs.Prelude.{Some, codes, decimal, ◌++◌};
    ghost use Rattle.std.specs.List.{flat_map};

    ghost output = { λ x. Some (flat_map (λ k. codes "," ++ decimal k) x.0.now) };

    fn fmt<W: fmt::Write>(&self, f: &mut fmt::Formatter<W>) -> fmt::Result {
        for number in self.0 {
            write!(f, ",{number}")?;
        }
        Ok(())
    }
}

fn share_word(word: &str) -> Result<u32, LineError>
    ensures { (n : ℕ) → is_share n ≡ true → word.now ≡ decimal n → Gives n result }
{
    number32(word).ok_or(LineError::Bad)
}

// The numbers between the commas.
fn numbers(alloc: Global, text: &str) -> Result<Vec<u32>, LineError>
    ensures { (shares : List ℕ) → 0 < length shares → list_all is_share shares ≡ true → text.now ≡ commas decimal shares → MatchResult result (λ found. found.items ≡ shares) (λ e. e ≡ NoMemory) }
{
    let mut found = Vec::new(alloc);
    let mut rest = text;
    while let Some((first, more)) = rest.split_once(',') {
        let share = share_word(first)?;
        found.push(share)?;
        rest = more;
    }
    let share = share_word(rest)?;
    found.push(share)?;
    Ok(found)
}

fn is_share(number: u32) -> bool
    ensures { result ≡ is_share number }
{
    number > 0
}

fn is_few(numbers: &[u32]) -> bool
    ensures { result ≡ (nat_lt 0 (length numbers.now) && nat_le (length numbers.now) 64) }
{
    !numbers.is_empty() && numbers.len() <= 64
}

fn is_share_each(numbers: &[u32]) -> bool
    ensures { result ≡ list_all is_share numbers.now }
{
    numbers.iter().all(|number| is_share(*number))
}

// Shares of 1 to 64 tenants.
fn are_shares(numbers: &[u32]) -> bool
    ensures { result ≡ ((nat_lt 0 (length numbers.now) && nat_le (length numbers.now) 64) && list_all is_share numbers.now) }
{
    is_few(numbers) && is_share_each(numbers)
}

// The line names these shares.
fn is_spelled(alloc: Global, line: &str, shares: &[u32]) -> Result<bool, OutOfMemory>
    ensures yes { IfOk result (λ spelled. spelled ≡ true → line.now ≡ shares_text shares.now) }
    ensures no { IfOk result (λ spelled. line.now ≡ shares_text shares.now → spelled ≡ true) }
{
    let numbers = NumbersText(shares);
    let text = format!(in alloc; "shares={numbers}")?;
    Ok(text.as_str() == line)
}

/// The shares that the first line names, given without its newline. `Bad` where it doesn't name those of 1 to 64 tenants.
pub fn read_shares(alloc: Global, line: &str) -> Result<Vec<u32>, LineError>
    requires { IsTrue (is_printable line.now) }

    // The line names what is read.
    ensures found { IfOk result (λ shares. SpellsShares line.now shares.items) }

    // What the line names is read, unless memory ran out.
    ensures only { (named : List ℕ) → SpellsShares line.now named → MatchResult result (λ shares. shares.items ≡ named) (λ e. e ≡ NoMemory) }
{
    let text = last(line, "shares=")?;
    let shares = numbers(alloc, text)?;
    if !are_shares(shares.as_slice()) || !is_spelled(alloc, line, shares.as_slice())? {
        return Err(LineError::Bad);
    }
    Ok(shares)
}
