//! All lines of a script as steps, before any of them is done.

ghost use Rattle.std.specs.Prelude.{◌≡◌, ◌≤◌, ◌++◌, ◌∷◌, [], ℕ, Bool, IfOk, IfErr, OnOk, length, if◌then◌else◌, ◌==◌};
ghost use Rattle.mdb_log.specs.declared.step.Step.{Step};
ghost use Rattle.mdb_topology.specs.Driving.{opens_seeds};
ghost use Rattle.mdb_driver_rules.specs.Acts.{is_driver_act};
ghost use Rattle.mdb_runs.specs.Runs.{IsScript};
ghost use Rattle.mdb_shared_runs.specs.Reading.{may_stand, IsLine, NoLine, NoScript};

use mdb_lines::{LineError, MAX_INPUT, RunError, cut_line, read_line};
use mdb_log::{Act, Step};
use std::alloc::Global;

// The act is one of a driver: of one pool, or of the topology.
fn is_driver_act(act: &Act) -> bool
    ensures { result ≡ is_driver_act act.now }
{
    match act {
        Act::Open(_) | Act::Ready(_) | Act::Clear(_, _, _) | Act::Close(_) => false,
        _ => true,
    }
}

// The act opens a driver.
fn opens_seeds(act: &Act) -> bool
    ensures { result ≡ opens_seeds act.now }
{
    matches!(act, Act::Open(_))
}

// The first step opens a driver, and no later one does.
fn may_stand(step: &Step, number: u32) -> bool
    ensures { result ≡ may_stand number step.now }
{
    if number == 1 {
        opens_seeds(&step.act)
    } else {
        is_driver_act(&step.act)
    }
}

// The step of the line with this number.
fn read_step(alloc: Global, line: &[u8], number: u32) -> Result<Step, RunError>
    ensures found { IfOk result (λ s. IsLine number line.now s) }
    ensures none { IfErr result (NoLine number line.now) }
{
    let step = match read_line(alloc, line, number) {
        Ok(step) => step,
        Err(LineError::Bad) => return Err(RunError::Malformed(number)),
        Err(LineError::OutOfMemory) => return Err(RunError::OutOfMemory),
    };
    if !may_stand(&step, number) {
        drop(step);
        return Err(RunError::Malformed(number));
    }
    Ok(step)
}

// Reads the next line, and keeps its step.
fn add_step(alloc: Global, line: &[u8], number: u32, steps: &mut Vec<Step>) -> Result<(), RunError>
    ensures found { OnOk result ((s : Step) × IsLine number line.now s × (steps.new.items ≡ steps.old.items ++ s ∷ [])) }
    ensures none { IfErr result (NoLine number line.now) }
{
    let step = match read_step(alloc, line, number) {
        Ok(step) => step,
        Err(e) => return Err(e),
    };
    match steps.push(step) {
        Ok(()) => Ok(()),
        Err(_) => Err(RunError::OutOfMemory),
    }
}

/// The steps of all lines.
pub(crate) fn read_steps(alloc: Global, input: &[u8]) -> Result<Vec<Step>, RunError>
    requires { length input.now ≤ MAX_INPUT }
    ensures steps { IfOk result (λ steps. IsScript input.now steps.items) }
    ensures few { IfOk result (λ steps. length steps.items ≤ MAX_INPUT) }
    ensures none { IfErr result (NoScript input.now) }
{
    let mut steps = Vec::new(alloc);
    let mut rest = input;
    let mut number = 1u32;
    while !rest.is_empty() {
        match cut_line(rest) {
            None => return Err(RunError::Malformed(number)),
            Some((line, behind)) => {
                match add_step(alloc, line, number, &mut steps) {
                    Ok(()) => {}
                    Err(e) => return Err(e),
                }
                rest = behind;
                number += 1;
            }
        }
    }
    Ok(steps)
}
