//! What is said where the words of the command line ask for nothing.

use crate::ending::tell_of;
use mdb_base::{Sink, Writing};
use mdb_commands::{CommandError, Subcommand};
use mdb_lines::{Status, tell_usage};

// What is wrong with a word of a subcommand, which shows its usage.
fn tell_word<E: Sink>(errors: &mut E, of: Subcommand, word: &str, text: &str) {
    tell_usage(errors, "mdb ");
    tell_usage(errors, of.name());
    tell_usage(errors, ": ");
    tell_usage(errors, word);
    tell_usage(errors, text);
    tell_usage(errors, "; mdb ");
    tell_usage(errors, of.name());
    tell_usage(errors, " --help has the usage\n");
}

// Which numbers the subcommand takes.
fn numbers(of: Subcommand) -> &'static str {
    match of {
        Subcommand::Make => "a number of 1 to 2000 is wanted",
        _ => "a number of 1 to 8 is wanted",
    }
}

// That a word is none of these numbers.
fn not_a_number(of: Subcommand) -> &'static str {
    match of {
        Subcommand::Make => " is no number of 1 to 2000",
        _ => " is no number of 1 to 8",
    }
}

/// Says on a line which word of the command line is at fault, and answers the status of a usage.
pub(crate) fn refuse(host: &HostRuntime, e: CommandError<'_>) -> Status {
    let mut errors = Writing::new(host.stderr());
    let errors = &mut errors;
    match e {
        CommandError::NoSubcommand => tell_usage(
            errors,
            "mdb: a command is wanted; mdb --help has them\n",
        ),
        CommandError::UnknownSubcommand(word) => tell_of(
            errors,
            word,
            "this is no command; mdb --help has them",
        ),
        CommandError::UnknownOption(of, word) => tell_word(errors, of, word, " is no option here"),
        CommandError::ExtraWord(of, word) => tell_word(errors, of, word, " is a word too many"),
        CommandError::MissingNumber(of) => tell_word(errors, of, "", numbers(of)),
        CommandError::BadNumber(of, word) => tell_word(errors, of, word, not_a_number(of)),
        CommandError::MissingYear => tell_word(
            errors,
            Subcommand::Judge,
            "--cmap",
            " is followed by a year, 2020 or 2021",
        ),
    }
    2
}
