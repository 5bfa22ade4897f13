//! What is found of a recording.

ghost use Rattle.std.specs.Prelude.{◌≡◌};
ghost use Rattle.mdb_recording_runs.specs.Report.{verdict_by};

/// What is found of a recording.
#[derive(Clone, Copy, Debug)]
pub enum Verdict {
    /// No event breaks a rule, and each line can be read.
    Kept,
    /// An event breaks a rule, or a line cannot be read.
    Broken,
    /// No line tells an event that is judged.
    NothingJudged,
}

impl Verdict {
    /// By the counts of findings, malformed lines and events.
    pub(crate) fn by(findings: u64, malformed: u64, events: u64) -> Verdict
        ensures { result ≡ verdict_by findings malformed events }
    {
        if findings != 0 || malformed != 0 {
            Verdict::Broken
        } else if events == 0 {
            Verdict::NothingJudged
        } else {
            Verdict::Kept
        }
    }
}
