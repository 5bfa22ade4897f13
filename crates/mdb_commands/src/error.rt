//! Why the words of a command line ask for nothing.

use crate::subcommand::Subcommand;

/// Why the words of a command line ask for nothing. Each names the word at fault.
#[derive(Clone, Copy, Debug, PartialEq, Eq)]
pub enum CommandError<'a> {
    /// There is no word.
    NoSubcommand,
    /// The word, which is the first one or stands behind `help`, means no subcommand.
    UnknownSubcommand(&'a str),
    /// The word begins with `-`, and is no option of the subcommand.
    UnknownOption(Subcommand, &'a str),
    /// The subcommand takes no such word behind those before it.
    ExtraWord(Subcommand, &'a str),
    /// The subcommand wants a number, and no word is left.
    MissingNumber(Subcommand),
    /// The word is not a number that the subcommand takes.
    BadNumber(Subcommand, &'a str),
    /// No word stands behind `--cmap`.
    MissingYear,
}
