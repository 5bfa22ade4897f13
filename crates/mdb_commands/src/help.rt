//! What the help of the tool says.

use crate::subcommand::Subcommand;

const TOOL: &str = "usage: mdb COMMAND [WORD ..] [FILE]
Runs and judges the connection pools of a MongoDB driver. Without FILE, or with -, it reads standard input.

  run [FILE]                  runs a script of steps, and writes its log
  share K [FILE]              runs a script by K threads, 1 to 8, and writes its log
  make N                      runs a script of N rounds that it makes, 1 to 2000, and writes a summary of its log
  audit [FILE]                says whether a log is legal, whoever wrote it
  judge [--cmap YEAR] [FILE]  judges a driver by a recording of its events, as lines of JSON
  fleet [FILE]                runs a replica set that fails over before a driver
  proxy [FILE]                runs a proxy that shares a driver's connections between tenants
  help [COMMAND]              this text, or the usage of a command; COMMAND --help says the same
  version                     the version, and that of the library's interface

Status: 0 done, 1 out of memory, 2 words that ask for nothing, 3 an input that cannot be read, 4 an output that cannot be written,
5 a malformed line, 6 an input that is too long, 7 a log that is not legal or a recording with a finding, 8 a recording of which
nothing was judged.
";

const RUN: &str = "usage: mdb run [FILE]
Runs a script of steps over a driver's pools and topology, and writes its log, an entry for each line.
";

const SHARE: &str = "usage: mdb share K [FILE]
Runs a script by K threads, 1 to 8, and writes the log in the order in which they took its lines.
";

const MAKE: &str = "usage: mdb make N
Runs a script of N rounds that it makes by a rule, 1 to 2000, and writes how many lines, grants and connections its log has.
";

const AUDIT: &str = "usage: mdb audit [FILE]
Says of a log, whoever wrote it, `legal entries=N`, or the first entry at fault and why: `bad entry=N why=WORD`.
";

const JUDGE: &str = "usage: mdb judge [--cmap YEAR] [FILE]
Judges a driver by the events that its listeners were told, as lines of JSON, by the standard of today or that of 2020 or 2021.
";

const FLEET: &str = "usage: mdb fleet [FILE]
Runs the script of a replica set that fails over before a driver, and writes what the driver describes after each event.
";

const PROXY: &str = "usage: mdb proxy [FILE]
Runs the script of a proxy that shares a driver's connections between tenants, and writes the answer to each line.
";

const HELP: &str = "usage: mdb help [COMMAND]
Says what the tool does, or a command of it.
";

const VERSION: &str = "usage: mdb version
Says the version, and that of the library's interface.
";

/// What the tool does: its commands, a line each, and its statuses.
pub fn tool_help() -> &'static str {
    TOOL
}

/// How a subcommand is used, and what it does.
pub fn help_of(subcommand: Subcommand) -> &'static str {
    match subcommand {
        Subcommand::Run => RUN,
        Subcommand::Audit => AUDIT,
        Subcommand::Judge => JUDGE,
        Subcommand::Fleet => FLEET,
        Subcommand::Proxy => PROXY,
        Subcommand::Make => MAKE,
        Subcommand::Share => SHARE,
        Subcommand::Help => HELP,
        Subcommand::Version => VERSION,
    }
}

/// The version of the tool, which is that of the library, and the version of the library's interface.
pub fn version() -> &'static str {
    "mdb 0.3.0, interface 4\n"
}
