//! One line after the other.

ghost use Rattle.std.specs.Prelude.{◌≡◌, ◌+◌, ◌++◌, List, ℕ, [], OnOk, option_map};
ghost use Rattle.mdb_recordings.specs.declared.standard.Standard.{Standard as Standard_};
ghost use Rattle.mdb_recording_lines.specs.LineForms.{line_view, malformed as unreadable, passed as not_judged, said, tells_server};
ghost use Rattle.mdb_recording_runs.specs.Keeping.{Keeps};
ghost use Rattle.mdb_recording_runs.specs.Report.{Read, after_event, after_said, after_seen, event_text, nothing, said_text, server_findings_text};

use crate::findings::{EventContext, sum, tell_findings};
use crate::server_findings::{ServerEventContext, tell_server_findings};
use json::Scratch;
use mdb_base::OutOfMemory;
use mdb_recording_lines::{Line, Names, read_line};
use mdb_recording_servers::{Seen, ServerEvent, ServerJudge, ServerTold};
use mdb_recordings::{Event, Judge, Recorded, Standard};
use std::alloc::Global;

/// What was read of a recording so far, and what was told of it.
#[derive(Drop)]
pub struct Reader {
    pub alloc: Global,
    pub standard: Standard,
    pub names: Names,
    pub judge: Judge,
    pub servers: Names,
    pub server_judge: ServerJudge,
    pub out: String,
    pub events: u64,
    pub findings: u64,
    pub malformed: u64,
    pub passed_over: u64,
}

impl Reader {
    /// Nothing was read.
    pub fn new(alloc: Global, standard: Standard) -> Reader
        ensures { Keeps standard nothing [] result }
    {
        Reader {
            alloc,
            standard,
            names: Names::new(alloc),
            judge: Judge::new(alloc),
            servers: Names::new(alloc),
            server_judge: ServerJudge::new(alloc),
            out: String::new(alloc),
            events: 0,
            findings: 0,
            malformed: 0,
            passed_over: 0,
        }
    }

    // An event of the pool at the address.
    fn take_event(&mut self, number: u64, address: &str, event: Event) -> Result<(), OutOfMemory>
        ensures { OnOk result ((standard : Standard_) (s : Read) (text : List ℕ) → Keeps standard s text self.old
            → Keeps standard (after_event standard number s address.now event) (text ++ event_text standard number s address.now event) self.new) }
    {
        let pool = self.names.number(self.alloc, address)?;
        let recorded = Recorded {
            pool,
            line: number,
            event,
        };
        let known = self.judge.look(&recorded);
        let place = EventContext {
            standard: self.standard,
            address,
            recorded: &recorded,
            known: &known,
        };
        let found = tell_findings(self.alloc, &mut self.out, &place)?;
        self.judge.note(&recorded, &known)?;
        self.events = sum(self.events, 1)?;
        self.findings = sum(self.findings, found)?;
        Ok(())
    }

    // An event of a server or of the topology.
    fn take_seen(&mut self, address: Option<&str>, seen: &Seen) -> Result<(), OutOfMemory>
        ensures { OnOk result ((standard : Standard_) (s : Read) (text : List ℕ) → Keeps standard s text self.old
            → Keeps standard (after_seen s seen.now) (text ++ server_findings_text s.server_history (option_map (λ a. a.now) address.entry) seen.now) self.new) }
    {
        let known = self.server_judge.look(&seen.event);
        let place = ServerEventContext {
            address,
            seen,
            known: &known,
        };
        let found = tell_server_findings(self.alloc, &mut self.out, &place)?;
        self.server_judge.note(seen, &known)?;
        self.events = sum(self.events, 1)?;
        self.findings = sum(self.findings, found)?;
        Ok(())
    }

    // An event of the server at the address.
    fn take_server(
        &mut self,
        number: u64,
        address: &str,
        told: ServerTold,
    ) -> Result<(), OutOfMemory>
        ensures { OnOk result ((standard : Standard_) (s : Read) (text : List ℕ) → Keeps standard s text self.old
            → Keeps standard (after_said standard number s (tells_server address.now told)) (text ++ said_text standard number s (tells_server address.now told)) self.new) }
    {
        let server = self.servers.number(self.alloc, address)?;
        let seen = Seen {
            line: number,
            event: ServerEvent::Server(server, told),
        };
        self.take_seen(Some(address), &seen)?;
        Ok(())
    }

    // A line that can't be read.
    fn take_malformed(&mut self, number: u64) -> Result<(), OutOfMemory>
        ensures { OnOk result ((standard : Standard_) (s : Read) (text : List ℕ) → Keeps standard s text self.old
            → Keeps standard (after_said standard number s unreadable) (text ++ said_text standard number s unreadable) self.new) }
    {
        let line = format!(in self.alloc; "line {number}: malformed\n")?;
        self.out.push_str(line.as_str())?;
        self.malformed = sum(self.malformed, 1)?;
        Ok(())
    }

    // A line of a kind that is not judged.
    fn pass_over(&mut self, number: u64) -> Result<(), OutOfMemory>
        ensures { OnOk result ((standard : Standard_) (s : Read) (text : List ℕ) → Keeps standard s text self.old
            → Keeps standard (after_said standard number s not_judged) (text ++ said_text standard number s not_judged) self.new) }
    {
        self.passed_over = sum(self.passed_over, 1)?;
        Ok(())
    }

    // What a line tells.
    fn take_line(&mut self, number: u64, line: Line<'_>) -> Result<(), OutOfMemory>
        ensures { OnOk result ((standard : Standard_) (s : Read) (text : List ℕ) → Keeps standard s text self.old
            → Keeps standard (after_said standard number s (line_view line.entry)) (text ++ said_text standard number s (line_view line.entry)) self.new) }
    {
        match line {
            Line::Malformed => self.take_malformed(number),
            Line::Passed => self.pass_over(number),
            Line::Told(address, event) => self.take_event(number, address, event),
            Line::OfServer(address, told) => self.take_server(number, address, told),
            Line::OfTopology(event) => {
                let seen = Seen {
                    line: number,
                    event,
                };
                self.take_seen(None, &seen)
            }
        }
    }

    /// The line of this number, without its newline.
    pub fn take(
        &mut self,
        scratch: &mut Scratch,
        number: u64,
        line: &[u8],
    ) -> Result<(), OutOfMemory>
        ensures { OnOk result ((standard : Standard_) (s : Read) (text : List ℕ) → Keeps standard s text self.old
            → Keeps standard (after_said standard number s (said line.now)) (text ++ said_text standard number s (said line.now)) self.new) }
    {
        let told = read_line(self.alloc, scratch, line)?;
        self.take_line(number, told)?;
        Ok(())
    }
}
