//! Ends of runs that the contracts exclude, each named for the wrong program that would end so.
#![tactic(auto)]

ghost use Rattle.std.specs.Prelude.{◌≡◌, ◌≤◌, ◌∷◌, ◌++◌, ℕ, List, [], Option, Some, length};
ghost use Rattle.mdb_base.specs.Outside.{Rose, Held};
ghost use Rattle.mdb_lines.specs.declared.run_error.RunError.TheVariants.{ReadFault, WriteFault, TooLong};
ghost use Rattle.mdb_lines.specs.Script.{max_input};
ghost use Rattle.mdb_log.specs.declared.log.Entry.{Entry};
ghost use Rattle.mdb_log.specs.declared.step.Step.{Step};
ghost use Rattle.mdb_log.specs.Beside.{KeepsLimits, GrantsAllFresh};
ghost use Rattle.mdb_log.specs.PlainLegal.{LegalLog};
ghost use Rattle.mdb_laws.specs.Logs.{TellsAllCauses};
ghost use Rattle.mdb_excluded.specs.Excluded.{Excludes};
ghost use Rattle.mdb_excluded.specs.Logs.{TellsOnce, ClosesByCause, IsAnswered, IsRefusedRightly, SearchesLastFirst};
ghost use Rattle.mdb_runs.specs.Runs.{Seen, Ran, Ended};
ghost use Rattle.mdb_shared_runs.specs.Scripts.{Shared};

/// A fault of the source is told, and no read failed.
pub fn always_faults()
    ensures { (old new : Seen) → ¬ (Rose old.reads new.reads) → ¬ (Ended old new ReadFault) }
{}

/// A fault of the sink is told, and no write failed.
pub fn gives_up()
    ensures { (old new : Seen) → ¬ (Rose old.writes new.writes) → ¬ (Ended old new WriteFault) }
{}

/// An input is said to be too long, and all its bytes may be a script.
pub fn always_too_long()
    ensures { (old new : Seen) (input : List ℕ) → old.left ≡ Some input → length input ≤ max_input → ¬ (Ended old new TooLong) }
{}

/// Entries of lines that are not in the input are written.
pub fn writes_other_lines()
    ensures { (log : List Entry) (held new_held : Option Held) (faults new_faults : ℕ) → Ran [] log held new_held faults new_faults → log ≡ [] }
{}

/// Where an entry is excluded after a log, because the log with it would not be legal, would pass a limit, would grant what is stale, would close without a cause, would answer otherwise, would tell an
/// outcome twice, would say of a pool what nothing caused, would refuse otherwise than the table, or would grant another connection than the one that came back last, no run that ends well has written it.
pub fn runs_write_nothing_excluded()
    ensures legal { (front later : List Entry) (e : Entry) (input : List ℕ) (held new_held : Option Held) (faults new_faults : ℕ) → Excludes LegalLog front e → ¬ (Ran input (front ++ e ∷ later) held new_held faults new_faults) }
    ensures within { (front later : List Entry) (e : Entry) (input : List ℕ) (held new_held : Option Held) (faults new_faults : ℕ) → Excludes KeepsLimits front e → ¬ (Ran input (front ++ e ∷ later) held new_held faults new_faults) }
    ensures fresh { (front later : List Entry) (e : Entry) (input : List ℕ) (held new_held : Option Held) (faults new_faults : ℕ) → Excludes GrantsAllFresh front e → ¬ (Ran input (front ++ e ∷ later) held new_held faults new_faults) }
    ensures closes { (front later : List Entry) (e : Entry) (input : List ℕ) (held new_held : Option Held) (faults new_faults : ℕ) → Excludes ClosesByCause front e → ¬ (Ran input (front ++ e ∷ later) held new_held faults new_faults) }
    ensures answered { (front later : List Entry) (e : Entry) (input : List ℕ) (held new_held : Option Held) (faults new_faults : ℕ) → Excludes IsAnswered front e → ¬ (Ran input (front ++ e ∷ later) held new_held faults new_faults) }
    ensures once { (front later : List Entry) (e : Entry) (input : List ℕ) (held new_held : Option Held) (faults new_faults : ℕ) → Excludes TellsOnce front e → ¬ (Ran input (front ++ e ∷ later) held new_held faults new_faults) }
    ensures causes { (front later : List Entry) (e : Entry) (input : List ℕ) (held new_held : Option Held) (faults new_faults : ℕ) → Excludes TellsAllCauses front e → ¬ (Ran input (front ++ e ∷ later) held new_held faults new_faults) }
    ensures refused { (front later : List Entry) (e : Entry) (input : List ℕ) (held new_held : Option Held) (faults new_faults : ℕ) → Excludes IsRefusedRightly front e → ¬ (Ran input (front ++ e ∷ later) held new_held faults new_faults) }
    ensures searches { (front later : List Entry) (e : Entry) (input : List ℕ) (held new_held : Option Held) (faults new_faults : ℕ) → Excludes SearchesLastFirst front e → ¬ (Ran input (front ++ e ∷ later) held new_held faults new_faults) }
{}

/// Nor has any run whose lines parts share.
pub fn parts_write_nothing_excluded()
    ensures legal { (front later : List Entry) (e : Entry) (k : ℕ) (steps : List Step) → Excludes LegalLog front e → ¬ (Shared k steps (front ++ e ∷ later)) }
    ensures within { (front later : List Entry) (e : Entry) (k : ℕ) (steps : List Step) → Excludes KeepsLimits front e → ¬ (Shared k steps (front ++ e ∷ later)) }
    ensures fresh { (front later : List Entry) (e : Entry) (k : ℕ) (steps : List Step) → Excludes GrantsAllFresh front e → ¬ (Shared k steps (front ++ e ∷ later)) }
    ensures closes { (front later : List Entry) (e : Entry) (k : ℕ) (steps : List Step) → Excludes ClosesByCause front e → ¬ (Shared k steps (front ++ e ∷ later)) }
    ensures answered { (front later : List Entry) (e : Entry) (k : ℕ) (steps : List Step) → Excludes IsAnswered front e → ¬ (Shared k steps (front ++ e ∷ later)) }
    ensures once { (front later : List Entry) (e : Entry) (k : ℕ) (steps : List Step) → Excludes TellsOnce front e → ¬ (Shared k steps (front ++ e ∷ later)) }
    ensures causes { (front later : List Entry) (e : Entry) (k : ℕ) (steps : List Step) → Excludes TellsAllCauses front e → ¬ (Shared k steps (front ++ e ∷ later)) }
    ensures refused { (front later : List Entry) (e : Entry) (k : ℕ) (steps : List Step) → Excludes IsRefusedRightly front e → ¬ (Shared k steps (front ++ e ∷ later)) }
    ensures searches { (front later : List Entry) (e : Entry) (k : ℕ) (steps : List Step) → Excludes SearchesLastFirst front e → ¬ (Shared k steps (front ++ e ∷ later)) }
{}
