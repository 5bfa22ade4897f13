//! Laws of verdicts, each by a name.

ghost use Rattle.std.specs.Prelude.{◌≡◌, ℕ, List, length};
ghost use Rattle.mdb_log.specs.declared.log.Entry.{Entry};
ghost use Rattle.mdb_log.specs.PlainLegal.{LegalLog};
ghost use Rattle.mdb_lines.specs.LogText.{text_of};
ghost use Rattle.mdb_entries.specs.Answers.{TextShows};
ghost use Rattle.mdb_audit.specs.declared.verdict.Verdict.TheVariants.{Legal};
ghost use Rattle.mdb_audit.specs.declared.verdict.Verdict.{Verdict};
ghost use Rattle.mdb_audit.specs.LegalText.{IsVerdict};

/// A text has one verdict.
pub fn texts_have_one_verdict()
    ensures { (text : List ℕ) (v w : Verdict) → IsVerdict text v → IsVerdict text w → v ≡ w }
{}

/// The text of a legal log is a legal one, where its lines show its entries.
pub fn legal_logs_have_legal_texts()
    ensures { (log : List Entry) → TextShows log → LegalLog log → IsVerdict (text_of log) (Legal (length log)) }
{}
