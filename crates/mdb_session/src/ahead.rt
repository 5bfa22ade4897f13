//! What a session tells of checks of servers beforehand.

ghost use Rattle.std.specs.Prelude.{◌≡◌, ◌^◌, ◌-◌, min, IfOk, IfErr};
ghost use Rattle.mdb_log.specs.declared.step.Step.{Step};
ghost use Rattle.mdb_lines.specs.Script.{Spells};
ghost use Rattle.mdb_parts.specs.declared.line_error.LineError.TheVariants.{OutOfMemory as NoMemory};
ghost use Rattle.mdb_session.specs.Ahead.{check_after, following, next_in};

use crate::session::Session;
use mdb_base::{OutOfMemory, ServerAddress};
use mdb_lines::{LineError, read_line};
use mdb_log::{Act, BeatenResult};
use mdb_monitor::{Begin, Next};
use std::alloc::Global;

// The number, or the greatest of 32 bits where it is above.
fn narrowed(number: u64) -> u32
    ensures { result ≡ min number (2 ^ 32 - 1) }
{
    match u32::try_from(number) {
        Ok(number) => number,
        Err(_) => u32::MAX,
    }
}

impl Session {
    /// What the check of the server does that begins now (SDAM, "Server Monitoring"), and `None` where no pool is open there. Where it makes a connection
    /// its number is the next one, or 4294967295 where that is past 32 bits and the check would be refused.
    pub fn next_check(
        &self,
        alloc: Global,
        address: &ServerAddress,
    ) -> Result<Option<Begin>, OutOfMemory>
        ensures { IfOk result (λ check. check ≡ check_after self.now address.now) }
    {
        let Some(monitor) = self.core.monitor(address) else {
            return Ok(None);
        };
        let fresh = narrowed(self.core.next_connection_id());
        let check = monitor.next_check(alloc, fresh)?;
        Ok(Some(check))
    }

    /// What follows the check of the server that ends so, asked before the end is stepped, and `None` where no pool is open there.
    pub fn next_after(
        &self,
        alloc: Global,
        address: &ServerAddress,
        came: &BeatenResult,
    ) -> Result<Option<Next>, OutOfMemory>
        ensures { IfOk result (λ next. next ≡ following self.now address.now came.now) }
    {
        self.core.next_after(alloc, address, came)
    }

    // What follows the check that the act ends.
    fn next_in(&self, alloc: Global, act: &Act) -> Result<Option<Next>, OutOfMemory>
        ensures { IfOk result (λ next. next ≡ next_in self.now act.now) }
    {
        match act {
            Act::Beaten(address, _, _, came) => self.next_after(alloc, address, came),
            _ => Ok(None),
        }
    }

    /// What follows the check whose end the line spells, asked before the line, and `None` where it ends none, or no pool is open there. Fails with `Bad`
    /// where the line spells no step that may come now.
    pub fn next_by_line(&self, alloc: Global, line: &[u8]) -> Result<Option<Next>, LineError>
        ensures ok { IfOk result (λ next. (s : Step) × Spells 2 line.now s × (next ≡ next_in self.now s.act)) }
        ensures only { (s : Step) → Spells 2 line.now s → IfErr result (λ e. e ≡ NoMemory) }
    {
        let step = read_line(alloc, line, 2)?;
        let next = self.next_in(alloc, &step.act);
        drop(step);
        Ok(next?)
    }
}
