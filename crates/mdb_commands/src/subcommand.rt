//! The subcommands of the tool.

ghost use Rattle.std.specs.Prelude.{◌≡◌, IfSome, IfNone};

/// What the first word of a command line names.
#[derive(Clone, Copy, Debug, PartialEq, Eq)]
pub enum Subcommand {
    Run,
    Audit,
    Judge,
    Fleet,
    Proxy,
    Make,
    Share,
    Help,
    Version,
}

impl Subcommand {
    ghost use Rattle.mdb_commands.specs.declared.subcommand.Subcommand.{Subcommand as Subcommand_};
    ghost use Rattle.mdb_commands.specs.Words.{name, Means};

    /// All of them, in the order of the help.
    pub const ALL: [Subcommand; 9] = [
        Subcommand::Run,
        Subcommand::Audit,
        Subcommand::Judge,
        Subcommand::Fleet,
        Subcommand::Proxy,
        Subcommand::Make,
        Subcommand::Share,
        Subcommand::Help,
        Subcommand::Version,
    ];

    /// Its word.
    pub fn name(self) -> &'static str
        ensures { result.now ≡ name self }
    {
        match self {
            Subcommand::Run => "run",
            Subcommand::Audit => "audit",
            Subcommand::Judge => "judge",
            Subcommand::Fleet => "fleet",
            Subcommand::Proxy => "proxy",
            Subcommand::Make => "make",
            Subcommand::Share => "share",
            Subcommand::Help => "help",
            Subcommand::Version => "version",
        }
    }

    /// The subcommand that a first word means, by its name or, for help and version, by a flag.
    pub fn of(word: &str) -> Option<Subcommand>
        ensures found { IfSome result (Means word.now) }
        ensures none { IfNone result ((s : Subcommand_) → Means word.now s → ⊥) }
    {
        if word == "run" {
            Some(Subcommand::Run)
        } else if word == "audit" {
            Some(Subcommand::Audit)
        } else if word == "judge" {
            Some(Subcommand::Judge)
        } else if word == "fleet" {
            Some(Subcommand::Fleet)
        } else if word == "proxy" {
            Some(Subcommand::Proxy)
        } else if word == "make" {
            Some(Subcommand::Make)
        } else if word == "share" {
            Some(Subcommand::Share)
        } else if word == "help" || word == "--help" || word == "-h" {
            Some(Subcommand::Help)
        } else if word == "version" || word == "--version" || word == "-V" {
            Some(Subcommand::Version)
        } else {
            None
        }
    }
}
