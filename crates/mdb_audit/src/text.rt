//! The verdict on a text.

ghost use Rattle.std.specs.Prelude.{◌≡◌, ◌+◌, ◌++◌, codes, [], List, length, IfOk};
ghost use Rattle.mdb_log.specs.PlainLegal.{LegalLog};
ghost use Rattle.mdb_entries.specs.declared.shown.Shown.{Shown};
ghost use Rattle.mdb_judging.specs.Audited.{Audits};
ghost use Rattle.mdb_judging.specs.Shown.{entries_of};
ghost use Rattle.mdb_audit.specs.LegalText.{IsVerdict};
ghost use Rattle.mdb_audit.specs.LineTaking.{ShowsThis, LineTaken};

use crate::verdict::Verdict;
use mdb_base::OutOfMemory;
use mdb_entries::{Shown, ShownError, read_entry};
use mdb_judging::{Auditor, Why};
use mdb_lines::cut_line;
use std::alloc::Global;

/// The most bytes that a log may have.
pub const MAX_LOG: u32 = 8_388_608;

fn entry(alloc: Global, line: &[u8], number: u32) -> Result<Option<Shown>, OutOfMemory>
    ensures { IfOk result (ShowsThis number line.now) }
{
    match read_entry(alloc, line, number) {
        Ok(shown) => Ok(Some(shown)),
        Err(ShownError::Bad) => Ok(None),
        Err(ShownError::OutOfMemory) => Err(OutOfMemory),
    }
}

// What is wrong with the line, if something is.
fn fault(
    alloc: Global,
    auditor: &mut Auditor,
    line: &[u8],
    number: u32,
) -> Result<Option<Why>, OutOfMemory>
    ensures { (before : List Shown) → LegalLog (entries_of before) → Audits (entries_of before) auditor.old → number ≡ length before + 1 → LineTaken before number (line.now ++ codes "\n") auditor.new result }
{
    let found = entry(alloc, line, number)?;
    match found {
        Some(shown) => {
            let answer = auditor.take(&shown);
            drop(shown);
            answer
        }
        None => Ok(Some(Why::Spelling)),
    }
}

fn next(read: u32) -> Result<u32, OutOfMemory>
    ensures { IfOk result (λ n. n ≡ read + 1) }
{
    match read.checked_add(1) {
        Some(number) => Ok(number),
        None => Err(OutOfMemory),
    }
}

// The lines, of which none was taken so far.
fn audit_lines(alloc: Global, auditor: &mut Auditor, text: &[u8]) -> Result<Verdict, OutOfMemory>
    requires { Audits [] auditor.old }
    ensures { IfOk result (IsVerdict text.now) }
{
    let mut rest = text;
    let mut read = 0u32;
    while !rest.is_empty() {
        let number = next(read)?;
        match cut_line(rest) {
            None => return Ok(Verdict::Bad(number, Why::Spelling)),
            Some((line, behind)) => {
                let found = fault(alloc, auditor, line, number)?;
                if let Some(why) = found {
                    return Ok(Verdict::Bad(number, why));
                }
                rest = behind;
                read = number;
            }
        }
    }
    Ok(Verdict::Legal(read))
}

/// Whether the text is that of a legal log, and else which line is at fault, and why.
pub fn audit(alloc: Global, text: &[u8]) -> Result<Verdict, OutOfMemory>
    ensures { IfOk result (IsVerdict text.now) }
{
    let mut auditor = Auditor::new(alloc);
    let answer = audit_lines(alloc, &mut auditor, text);
    drop(auditor);
    answer
}
