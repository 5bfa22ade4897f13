//! Reading the words of a command line.

ghost use Rattle.std.specs.Prelude.{◌≡◌, [], ◌∷◌, IfOk, IfErr, MatchOption, codes, decimal, map, ◌≤◌};
ghost use Rattle.mdb_commands.specs.declared.subcommand.Subcommand.TheVariants as subcommand;
ghost use Rattle.mdb_commands.specs.Words.{is_option, asks_help};
ghost use Rattle.mdb_commands.specs.Commands.{IsInput, IsOf, Names, Fits};
ghost use Rattle.mdb_commands.specs.Errors.{NoNumber, IsInputError, IsErrorOf, Refuses};

use crate::command::{Command, Input};
use crate::error::CommandError;
use crate::subcommand::Subcommand;
use mdb_generator::{ToolCommand, read_words};

fn is_option(word: &str) -> bool
    ensures { result ≡ is_option word.now }
{
    match word.as_bytes().split_first() {
        Some((first, _)) => *first == b'-',
        None => false,
    }
}

#[tactic(auto, unfolding(crate::specs::Words::asks_help))]
fn asks_help(word: &str) -> bool
    ensures { result ≡ asks_help word.now }
{
    word == "--help" || word == "-h"
}

// The first word, and those behind it.
fn cut<'a, 'b>(words: &'b [&'a str]) -> Option<(&'a str, &'b [&'a str])>
    ensures { MatchOption result (map (λ w. w.now) words.now ≡ []) (λ p. map (λ w. w.now) words.now ≡ p.0.now ∷ map (λ w. w.now) p.1.now) }
{
    match words.split_first() {
        Some((word, rest)) => Some((*word, rest)),
        None => None,
    }
}

fn one_input<'a>(of: Subcommand, word: &'a str) -> Result<Input<'a>, CommandError<'a>>
    ensures ok { IfOk result (IsInput (word.now ∷ [])) }
    ensures err { IfErr result (IsInputError of (word.now ∷ [])) }
{
    if word == "-" {
        Ok(Input::Standard)
    } else if is_option(word) {
        Err(CommandError::UnknownOption(of, word))
    } else {
        Ok(Input::File(word))
    }
}

// The input that the words behind all others name.
fn input<'a>(of: Subcommand, words: &[&'a str]) -> Result<Input<'a>, CommandError<'a>>
    ensures ok { IfOk result (IsInput (map (λ w. w.now) words.now)) }
    ensures err { IfErr result (IsInputError of (map (λ w. w.now) words.now)) }
{
    match cut(words) {
        None => Ok(Input::Standard),
        Some((word, rest)) => match cut(rest) {
            None => one_input(of, word),
            Some((extra, _)) => Err(CommandError::ExtraWord(of, extra)),
        },
    }
}

fn number_of_make(digits: &str) -> Option<u32>
    ensures { MatchOption result (NoNumber subcommand.Make digits.now) (λ n. (1 ≤ n) × (n ≤ 2000) × (digits.now ≡ decimal n)) }
{
    match read_words(&["make", digits]) {
        ToolCommand::Make(n) => Some(n),
        ToolCommand::Script | ToolCommand::Share(_) | ToolCommand::Usage => None,
    }
}

fn number_of_share(digits: &str) -> Option<u32>
    ensures { MatchOption result (NoNumber subcommand.Share digits.now) (λ k. (1 ≤ k) × (k ≤ 8) × (digits.now ≡ decimal k)) }
{
    match read_words(&["share", digits]) {
        ToolCommand::Share(k) => Some(k),
        ToolCommand::Script | ToolCommand::Make(_) | ToolCommand::Usage => None,
    }
}

fn make<'a>(words: &[&'a str]) -> Result<Command<'a>, CommandError<'a>>
    ensures ok { IfOk result (λ c. IsOf c subcommand.Make (map (λ w. w.now) words.now)) }
    ensures err { IfErr result (IsErrorOf subcommand.Make (map (λ w. w.now) words.now)) }
{
    let Some((digits, rest)) = cut(words) else {
        return Err(CommandError::MissingNumber(Subcommand::Make));
    };
    match (number_of_make(digits), cut(rest)) {
        (None, _) => Err(CommandError::BadNumber(Subcommand::Make, digits)),
        (Some(n), None) => Ok(Command::Make(n)),
        (Some(_), Some((extra, _))) => Err(CommandError::ExtraWord(Subcommand::Make, extra)),
    }
}

#[tactic(auto, using(crate::proofs::Behind::behind))]
fn share<'a>(words: &[&'a str]) -> Result<Command<'a>, CommandError<'a>>
    ensures ok { IfOk result (λ c. IsOf c subcommand.Share (map (λ w. w.now) words.now)) }
    ensures err { IfErr result (IsErrorOf subcommand.Share (map (λ w. w.now) words.now)) }
{
    let Some((digits, rest)) = cut(words) else {
        return Err(CommandError::MissingNumber(Subcommand::Share));
    };
    let Some(k) = number_of_share(digits) else {
        return Err(CommandError::BadNumber(Subcommand::Share, digits));
    };
    match input(Subcommand::Share, rest) {
        Ok(from) => Ok(Command::Share(k, from)),
        Err(e) => Err(e),
    }
}

fn judge_today<'a>(words: &[&'a str]) -> Result<Command<'a>, CommandError<'a>>
    ensures ok { IfOk result (λ c. IsOf c subcommand.Judge (map (λ w. w.now) words.now)) }
    ensures err { IfErr result (IsErrorOf subcommand.Judge (map (λ w. w.now) words.now)) }
{
    match input(Subcommand::Judge, words) {
        Ok(from) => Ok(Command::Judge(None, from)),
        Err(e) => Err(e),
    }
}

// The words behind the flag `--cmap`.
#[tactic(auto, using(crate::proofs::Behind::behind))]
fn judge_by<'a>(words: &[&'a str]) -> Result<Command<'a>, CommandError<'a>>
    ensures ok { IfOk result (λ c. IsOf c subcommand.Judge (codes "--cmap" ∷ (map (λ w. w.now) words.now))) }
    ensures err { IfErr result (IsErrorOf subcommand.Judge (codes "--cmap" ∷ (map (λ w. w.now) words.now))) }
{
    let Some((year, rest)) = cut(words) else {
        return Err(CommandError::MissingYear);
    };
    match input(Subcommand::Judge, rest) {
        Ok(from) => Ok(Command::Judge(Some(year), from)),
        Err(e) => Err(e),
    }
}

fn judge<'a>(words: &[&'a str]) -> Result<Command<'a>, CommandError<'a>>
    ensures ok { IfOk result (λ c. IsOf c subcommand.Judge (map (λ w. w.now) words.now)) }
    ensures err { IfErr result (IsErrorOf subcommand.Judge (map (λ w. w.now) words.now)) }
{
    match cut(words) {
        Some((flag, rest)) if flag == "--cmap" => judge_by(rest),
        _ => judge_today(words),
    }
}

fn help<'a>(words: &[&'a str]) -> Result<Command<'a>, CommandError<'a>>
    ensures ok { IfOk result (λ c. IsOf c subcommand.Help (map (λ w. w.now) words.now)) }
    ensures err { IfErr result (IsErrorOf subcommand.Help (map (λ w. w.now) words.now)) }
{
    let Some((word, rest)) = cut(words) else {
        return Ok(Command::Help(None));
    };
    match (Subcommand::of(word), cut(rest)) {
        (_, Some((extra, _))) => Err(CommandError::ExtraWord(Subcommand::Help, extra)),
        (Some(of), None) => Ok(Command::Help(Some(of))),
        (None, None) => Err(CommandError::UnknownSubcommand(word)),
    }
}

fn version<'a>(words: &[&'a str]) -> Result<Command<'a>, CommandError<'a>>
    ensures ok { IfOk result (λ c. IsOf c subcommand.Version (map (λ w. w.now) words.now)) }
    ensures err { IfErr result (IsErrorOf subcommand.Version (map (λ w. w.now) words.now)) }
{
    match cut(words) {
        None => Ok(Command::Version),
        Some((extra, _)) => Err(CommandError::ExtraWord(Subcommand::Version, extra)),
    }
}

// The command of a subcommand and the words behind it, none of which asks for its help.
fn command<'a>(of: Subcommand, words: &[&'a str]) -> Result<Command<'a>, CommandError<'a>>
    ensures ok { IfOk result (λ c. IsOf c of (map (λ w. w.now) words.now)) }
    ensures err { IfErr result (IsErrorOf of (map (λ w. w.now) words.now)) }
{
    match of {
        Subcommand::Run => Ok(Command::Run(input(of, words)?)),
        Subcommand::Audit => Ok(Command::Audit(input(of, words)?)),
        Subcommand::Judge => judge(words),
        Subcommand::Fleet => Ok(Command::Fleet(input(of, words)?)),
        Subcommand::Proxy => Ok(Command::Proxy(input(of, words)?)),
        Subcommand::Make => make(words),
        Subcommand::Share => share(words),
        Subcommand::Help => help(words),
        Subcommand::Version => version(words),
    }
}

fn behind<'a>(of: Subcommand, words: &[&'a str]) -> Result<Command<'a>, CommandError<'a>>
    ensures ok { IfOk result (λ c. IsOf c of (map (λ w. w.now) words.now)) }
    ensures err { IfErr result (IsErrorOf of (map (λ w. w.now) words.now)) }
{
    match cut(words) {
        Some((word, [])) if asks_help(word) => Ok(Command::Help(Some(of))),
        _ => command(of, words),
    }
}

/// What the words of a command line, without the program's name, ask for. Numbers have no sign and no leading zero.
pub fn read_command<'a>(words: &[&'a str]) -> Result<Command<'a>, CommandError<'a>>
    ensures ok { IfOk result (Names (map (λ w. w.now) words.now)) }
    ensures fits { IfOk result Fits }
    ensures err { IfErr result (Refuses (map (λ w. w.now) words.now)) }
{
    match cut(words) {
        None => Err(CommandError::NoSubcommand),
        Some((word, rest)) => match Subcommand::of(word) {
            Some(of) => behind(of, rest),
            None => Err(CommandError::UnknownSubcommand(word)),
        },
    }
}
