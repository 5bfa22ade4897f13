//! What follows a check of a server, asked before its end is stepped.

ghost use Rattle.std.specs.Prelude.{◌≡◌, ◌≢◌, List, None, Some};
ghost use Rattle.mdb_lines.specs.Script.{Spells};
ghost use Rattle.mdb_log.specs.declared.log.Entry.{Entry};
ghost use Rattle.mdb_log.specs.declared.step.Step.{Step};
ghost use Rattle.mdb_monitor.specs.declared.check.Next.{Next as Follows};
ghost use Rattle.mdb_c.specs.Checks.{next_number};
ghost use Rattle.mdb_c.specs.Lines.{beaten_line, no_moment};
ghost use Rattle.mdb_session.specs.Ahead.{next_in};

use crate::outcomes::end_of_check;
use mdb_monitor::Next;
use mdb_session::{At, CLOSED, MALFORMED, NO_ENTRY, NO_MEMORY, OK, Slot, Status, status_of};
use std::alloc::Global;

// What a monitor does next as a number, from 1.
fn next_number(next: Next) -> u32
    ensures { result ≡ next_number next }
{
    match next {
        Next::Retry => 1,
        Next::Sleep => 2,
        Next::Continue => 3,
    }
}

/// Tells what follows the check of a monitor that ends so (SDAM, "Server Monitoring"), asked before the end is stepped: 1 where it checks again at once,
/// since the server was available and may have restarted, 2 where it sleeps until the time between two checks is over or a check is wanted, and 3 where
/// it checks at once since the server answers when something changes. `monitor` and `outcome` are as for the end of a check.
#[unsafe(no_mangle)]
pub extern "C" fn mdb_check_next(
    alloc: Global,
    slot: &mut Slot,
    monitor: &[u8],
    outcome: &[u8],
    next: &mut u32,
) -> Status
    ensures ok { result ≡ OK → (log : List Entry) × (s : Step) × (n : Follows) × (slot.old.word.value ≡ Some log) × Spells 2 (beaten_line no_moment monitor.now outcome.now) s × (next_in log s.act ≡ Some n) × (next.new ≡ next_number n) }
    ensures none { result ≡ NO_ENTRY → (log : List Entry) × (s : Step) × (slot.old.word.value ≡ Some log) × Spells 2 (beaten_line no_moment monitor.now outcome.now) s × (next_in log s.act ≡ None) }
    ensures malformed { result ≡ MALFORMED → (s : Step) → Spells 2 (beaten_line no_moment monitor.now outcome.now) s → ⊥ }
    ensures other { result ≢ OK → next.new ≡ next.old }
    ensures same { slot.new.word.value ≡ slot.old.word.value }
    ensures closed { result ≡ CLOSED → slot.old.word.value ≡ None }
    ensures answers { result ≢ OK → result ≢ NO_MEMORY → result ≢ MALFORMED → result ≢ NO_ENTRY → result ≡ CLOSED }
{
    let at = At { moment: 0, seat: 0 };
    let line = match end_of_check(alloc, &at, monitor, outcome) {
        Ok(line) => line,
        Err(why) => return status_of(why),
    };
    let Some(session) = slot.take(alloc) else {
        return CLOSED;
    };
    let found = session.next_by_line(alloc, line.as_bytes());
    *slot = Slot::holding(session);
    match found {
        Ok(Some(follows)) => {
            *next = next_number(follows);
            OK
        }
        Ok(None) => NO_ENTRY,
        Err(why) => status_of(why),
    }
}
