//! A driver that keeps the last entry of its log.

ghost use Rattle.std.specs.Prelude.{◌≡◌, ◌++◌, ◌∷◌, ◌≤◌, ◌<◌, [], List, ℕ, IfOk, IfErr, OnErr, IsTrue, length, drop, false};
ghost use Rattle.mdb_log.specs.Acts.{IsDriverAct};
ghost use Rattle.mdb_log.specs.declared.step.Step.{Step};
ghost use Rattle.mdb_lines.specs.Grammar.{is_step, is_open};
ghost use Rattle.mdb_lines.specs.Script.{Spells};
ghost use Rattle.mdb_parts.specs.declared.line_error.LineError.TheVariants.{OutOfMemory as NoMemory};
ghost use Rattle.mdb_driver_rules.specs.Lines.{entry_after, answer_after};

use crate::texts::copied;
use mdb_base::OutOfMemory;
use mdb_lines::{LineError, read_line, write_entry};
use mdb_log::{Act, Entry, Log, Reply, Step};
use mdb_past::{Past, Tells};
use mdb_topology::TopologyCore;
use std::alloc::Global;
use std::marker::Model;

/// A driver with the last entry of its log. Contracts see the whole log, from the opening on; no entry but the last takes memory.
#[derive(Drop)]
pub struct Session {
    pub(crate) core: TopologyCore,
    pub(crate) past: Past<Entry>,
    pub(crate) last: Log,
}

impl Model for Session {
    ghost use Rattle.std.specs.Prelude.{List, ◌++◌};
    ghost use Rattle.std.specs.Coded.{codes};
    ghost use Rattle.mdb_base.specs.DocumentCode.{fields_coded};
    ghost use Rattle.mdb_log.specs.declared.log.Entry.{Entry};
    ghost use Rattle.mdb_session.specs.Sessions.{Keeps};

    ghost Value = { List Entry };

    ghost coded = { Prim.hlevel (codes, fields_coded) };

    ghost view = { λ s. s.past.value ++ s.last };

    ghost invariant = { λ s. Keeps s.core s.past.value s.last };
}

// The whole log.
struct Whole;

impl Tells<Session, Entry> for Whole {
    ghost told = { λ s. s };
}

impl Session {
    ghost use Rattle.mdb_log.specs.LegalLog.{IsLegalLog};
    ghost use Rattle.mdb_session.specs.Sessions.{IsLastText};
    ghost use Rattle.mdb_topology.specs.Logging.{IsDriverOf, IsKept};
    ghost use Rattle.mdb_topology.specs.declared.topology.TopologyCore.{TopologyCore};

    // Opens a driver by a step that a first line spells.
    fn opened(alloc: Global, seat: u32, step: &Step) -> Result<Session, OutOfMemory>
        requires spelled { IsTrue (is_step step.now) }
        requires opens { IsTrue (is_open step.now.act) }
        ensures { IfOk result (λ session. session ≡ entry_after seat [] step.now ∷ []) }
    {
        let Act::Open(options) = &step.act else {
            unreachable!()
        };
        let options = options.get().clone()?;
        let mut last = Log::new(alloc);
        let core = TopologyCore::open_seeds(alloc, &mut last, seat, options)?;
        Ok(Session {
            core,
            past: Past::none(),
            last,
        })
    }

    /// Opens a driver by the `open` line of a script, given without its newline. Fails with `Bad` where the line is no such line.
    pub fn open_line(alloc: Global, seat: u32, line: &[u8]) -> Result<Session, LineError>
        ensures ok { IfOk result (λ session. (s : Step) × Spells 1 line.now s × (session ≡ entry_after seat [] s ∷ [])) }
        ensures only { (s : Step) → Spells 1 line.now s → IfErr result (λ e. e ≡ NoMemory) }
    {
        let step = read_line(alloc, line, 1)?;
        let made = Session::opened(alloc, seat, &step);
        drop(step);
        Ok(made?)
    }

    /// Does a step of a driver's callers, whether a line can spell it or not. The log gets its entry, of the seat. Where it fails nothing was done.
    pub fn act(&mut self, alloc: Global, seat: u32, step: &Step) -> Result<Reply, OutOfMemory>
        requires { IsDriverAct step.now.act }
        ensures ok { IfOk result (λ reply. (reply ≡ (answer_after self.old step.now).reply) × (self.new ≡ self.old ++ entry_after seat self.old step.now ∷ [])) }
        ensures err { OnErr result (self.new ≡ self.old) }
    {
        let past = Past::of::<Session, Whole>(self);
        let mut log = Log::new(alloc);
        let reply = self.core.step(alloc, &mut log, seat, step)?;
        self.past = past;
        self.last = log;
        Ok(reply)
    }

    /// Does a step that a line spells, and which opens nothing. The log gets its entry, of the seat. Where it fails nothing was done.
    pub fn step(&mut self, alloc: Global, seat: u32, step: &Step) -> Result<Reply, OutOfMemory>
        requires spelled { IsTrue (is_step step.now) }
        requires later { is_open step.now.act ≡ false }
        ensures ok { IfOk result (λ reply. (reply ≡ (answer_after self.old step.now).reply) × (self.new ≡ self.old ++ entry_after seat self.old step.now ∷ [])) }
        ensures err { OnErr result (self.new ≡ self.old) }
    {
        self.act(alloc, seat, step)
    }

    /// Does the step that a line spells, any line of a script but the first, given without its newline. The log gets its entry, of the seat.
    /// Fails with `Bad` where the line spells no such step; where it fails nothing was done.
    pub fn line(&mut self, alloc: Global, seat: u32, line: &[u8]) -> Result<Reply, LineError>
        ensures ok { IfOk result (λ reply. (s : Step) × Spells 2 line.now s × (reply ≡ (answer_after self.old s).reply) × (self.new ≡ self.old ++ entry_after seat self.old s ∷ [])) }
        ensures only { (s : Step) → Spells 2 line.now s → IfErr result (λ e. e ≡ NoMemory) }
        ensures err { OnErr result (self.new ≡ self.old) }
    {
        let step = read_line(alloc, line, 2)?;
        let done = self.step(alloc, seat, &step);
        drop(step);
        Ok(done?)
    }

    /// Writes the text of the last entry, with its newline, to the beginning of `out` where it fits there, and answers how long it is.
    pub fn entry_text(&self, alloc: Global, out: &mut [u8]) -> Result<usize, OutOfMemory>
        ensures fits { IfOk result (λ n. n ≤ length out.old → (text : List ℕ) × IsLastText self.now text × (length text ≡ n) × (out.new ≡ text ++ drop n out.old)) }
        ensures small { IfOk result (λ n. length out.old < n → (text : List ℕ) × IsLastText self.now text × (length text ≡ n) × (out.new ≡ out.old)) }
        ensures err { OnErr result (out.new ≡ out.old) }
    {
        let mut text = Vec::new(alloc);
        write_entry(alloc, self.last(), &mut text)?;
        Ok(copied(text.as_slice(), out))
    }

    /// The log of a session is that of a driver, legal, and keeps what is said beside it.
    pub fn logs_are_legal(&self)
        ensures driver { (core : TopologyCore) × IsDriverOf core self.now }
        ensures legal { IsLegalLog self.now }
        ensures kept { IsKept self.now }
    {
        let _core = &self.core;
    }
}
