//! Scripts made by a rule.

ghost use Rattle.std.specs.Prelude.{◌≡◌, ◌++◌, ◌<◌, ◌≤◌, IfOk, OnOk};
ghost use Rattle.std.specs.List.{flat_map};
ghost use Rattle.mdb_lines.specs.Script.{line_of};
ghost use Rattle.mdb_lines.specs.Spelling.{use_text};
ghost use Rattle.mdb_generator.specs.Generated.{requested, established, returned, use_in, rest, round as round_steps, script};

use mdb_base::OutOfMemory;
use std::alloc::Global;

const OPENING: &str = "open seeds=a:1 lb max=3 connecting=2\n";

// In this round the party of the same number asks.
fn request(alloc: Global, round: u32, out: &mut Vec<u8>) -> Result<(), OutOfMemory>
    ensures { OnOk result (out.new.items ≡ out.old.items ++ line_of (requested round)) }
{
    let line = format!(in alloc; "request {round} {round} a:1\n")?;
    out.extend_from_slice(line.as_bytes())?;
    Ok(())
}

// In this round a connection is established.
fn establish(alloc: Global, round: u32, id: u32, out: &mut Vec<u8>) -> Result<(), OutOfMemory>
    ensures { OnOk result (out.new.items ≡ out.old.items ++ line_of (established round id)) }
{
    let line = format!(in alloc;
        "established {round} 0 {id} wire=21 sid=0102030405060708090a0b0c\n"
    )?;
    out.extend_from_slice(line.as_bytes())?;
    Ok(())
}

// How the connection was used that comes back in this round: every tenth operation failed.
fn use_word(round: u32) -> &'static str
    ensures { result.now ≡ use_text (use_in round) }
{
    if round % 10 == 0 { "errored" } else { "ok" }
}

// In this round the party of three rounds before returns its connection.
fn give_back(alloc: Global, round: u32, out: &mut Vec<u8>) -> Result<(), OutOfMemory>
    requires late { 3 < round }
    ensures { OnOk result (out.new.items ≡ out.old.items ++ line_of (returned round)) }
{
    let party = round - 3;
    let used = use_word(round);
    let line = format!(in alloc; "return {round} {party} {used}\n")?;
    out.extend_from_slice(line.as_bytes())?;
    Ok(())
}

// Appends what comes behind the request of a round.
fn append_rest(alloc: Global, round: u32, out: &mut Vec<u8>) -> Result<(), OutOfMemory>
    requires { round ≤ 2000 }
    ensures { OnOk result (out.new.items ≡ out.old.items ++ flat_map line_of (rest round)) }
{
    if round <= 3 {
        establish(alloc, round, round, out)?;
    } else if round % 10 == 0 {
        give_back(alloc, round, out)?;
        establish(alloc, round, 3 + round / 10, out)?;
    } else {
        give_back(alloc, round, out)?;
    }
    Ok(())
}

// Appends the lines of a round.
fn append_round(alloc: Global, round: u32, out: &mut Vec<u8>) -> Result<(), OutOfMemory>
    requires { round ≤ 2000 }
    ensures { OnOk result (out.new.items ≡ out.old.items ++ flat_map line_of (round_steps round)) }
{
    request(alloc, round, out)?;
    append_rest(alloc, round, out)?;
    Ok(())
}

/// The script of n rounds, 1 to 2,000: one pool behind a load balancer, with at most 3 connections.
///
/// In round i, at the moment i, party i asks for a connection. In the first three rounds the connection is then
/// established; in each later round the party of three rounds before returns its connection. Every tenth one is
/// returned as errored, and the connection that takes its place is established.
pub fn make_script(alloc: Global, n: u32) -> Result<Vec<u8>, OutOfMemory>
    requires some { 1 ≤ n }
    requires few { n ≤ 2000 }
    ensures { IfOk result (λ bytes. bytes.items ≡ script n) }
{
    let mut out = Vec::from_slice(alloc, OPENING.as_bytes())?;
    for i in 0..n {
        append_round(alloc, i + 1, &mut out)?;
    }
    Ok(out)
}
