//! What a command line asks for.

use crate::subcommand::Subcommand;

/// Where a command reads from.
#[derive(Clone, Copy, Debug, PartialEq, Eq)]
pub enum Input<'a> {
    /// Standard input: no word, or `-`.
    Standard,
    /// The file with this path.
    File(&'a str),
}

/// What the words of a command line ask for.
#[derive(Clone, Copy, Debug, PartialEq, Eq)]
pub enum Command<'a> {
    /// `run [FILE]`: runs a script, and writes its log.
    Run(Input<'a>),
    /// `audit [FILE]`: says whether a log is legal.
    Audit(Input<'a>),
    /// `judge [--cmap YEAR] [FILE]`: judges a recording of a driver's events, by the standard of that year.
    Judge(Option<&'a str>, Input<'a>),
    /// `fleet [FILE]`: runs the script of a replica set before a driver.
    Fleet(Input<'a>),
    /// `proxy [FILE]`: runs the script of a proxy.
    Proxy(Input<'a>),
    /// `make N`: runs the generated script of 1 to 2,000 rounds, and tells its summary.
    Make(u32),
    /// `share K [FILE]`: runs a script by 1 to 8 threads.
    Share(u32, Input<'a>),
    /// `help [SUBCOMMAND]`, or `--help` or `-h` behind a subcommand or alone.
    Help(Option<Subcommand>),
    /// `version`, `--version` or `-V`.
    Version,
}
