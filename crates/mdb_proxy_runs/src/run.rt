//! Runs of a proxy script.

ghost use Rattle.std.specs.Prelude.{◌≡◌, ◌≤◌, ◌<◌, [], ◌∷◌, ℕ, List, Some, None, IfOk, IfErr, OnOk, IsTrue, length, drop, string_bytes, true, MatchResult, ⊤};
ghost use Rattle.mdb_base.specs.declared.options.Options.{Options as OptionsRecord};
ghost use Rattle.mdb_base.specs.Outside.{Rose, Took};
ghost use Rattle.mdb_base.specs.OptionRules.{broken_rule};
ghost use Rattle.mdb_lines.specs.Grammar.{is_printable};
ghost use Rattle.mdb_lines.specs.LogText.{reply_text};
ghost use Rattle.mdb_lines.specs.Loops.{ReadsFew, TookFront};
ghost use Rattle.mdb_lines.specs.Script.{Spells, lines_of};
ghost use Rattle.mdb_lines.specs.declared.run_error.RunError.TheVariants.{OutOfMemory as NoMemory, Malformed, TooLong, WriteFault as IsWriteFault};
ghost use Rattle.mdb_log.specs.declared.log.Entry.{Entry as EntryRecord};
ghost use Rattle.mdb_topology.specs.Logging.{opening_step};
ghost use Rattle.mdb_proxy_lines.specs.ProxyLines.{SpellsStep};
ghost use Rattle.mdb_proxy_lines.specs.ProxyText.{line_text};
ghost use Rattle.mdb_proxy_runs.specs.ProxyScripts.{AreLines, IsBadAt};
ghost use Rattle.mdb_proxy_runs.specs.ProxyRuns.{Opens, Answers, Begins, LineRuns, LinesRun, RunsFrom, Ran, Finished};
ghost use Rattle.mdb_proxy_runs.specs.ProxyEnds.{cause_of, LineEnds, LinesEnd, OptionsEnd, OpeningEnds, SecondEnds, SharesEnd, RunEnds, Ended, EndsWith};
ghost use Rattle.mdb_proxy_runs.specs.ProxyWrites.{LineWrote, LinesWrote, SecondWrote, SharesWrote, RunWrote, Wrote};

use mdb_base::{Options, OutOfMemory, Sink, Source};
use mdb_lines::{
    LineError, MAX_INPUT, RunError, cut_line, is_printable, read_all, read_line, write_all,
};
use mdb_log::{Act, DEFAULT_MAX_POOL_SIZE, Entry, Log, Step};
use mdb_proxies::{Proxy, ProxyStep, ShareError};
use mdb_proxy_lines::{answer_line, opening_line, read_proxy_line, read_shares};
use mdb_topology::TopologyCore;
use std::alloc::Global;

fn malformed(e: LineError, number: u32) -> RunError
    ensures { result ≡ cause_of e number }
{
    match e {
        LineError::Bad => RunError::Malformed(number),
        LineError::OutOfMemory => RunError::OutOfMemory,
    }
}

fn send<K: Sink>(sink: &mut K, text: &[u8]) -> Result<(), RunError>
    ensures took { OnOk result (Took (K.held sink.old) (K.held sink.new) text.now × (K.faults sink.new ≡ K.faults sink.old)) }
    ensures fails { IfErr result (λ e. (e ≡ IsWriteFault) × Rose (K.faults sink.old) (K.faults sink.new)) }
    ensures front { IfErr result (λ e. TookFront (K.held sink.old) (K.held sink.new) text.now) }
{
    match write_all(sink, text) {
        Ok(()) => Ok(()),
        Err(_) => Err(RunError::WriteFault),
    }
}

// A line of printable bytes, as text.
fn text_of(line: &[u8], number: u32) -> Result<&str, RunError>
    ensures text { IfOk result (λ text. (text.now ≡ line.now) × IsTrue (is_printable text.now)) }
    ensures none { IfErr result (λ e. (e ≡ Malformed number) × (is_printable line.now ≡ true → ⊥)) }
{
    if !is_printable(line) {
        return Err(RunError::Malformed(number));
    }
    match str::from_utf8(line) {
        Ok(text) => Ok(text),
        Err(_) => Err(RunError::Malformed(number)),
    }
}

// The options of the line that opens a driver.
fn read_options(alloc: Global, line: &str) -> Result<Options, RunError>
    ensures fits { IfOk result (λ options. broken_rule options ≡ None) }
    ensures opens { IfOk result (λ options. Spells 1 line.now (opening_step options)) }
    ensures alone { IfOk result (λ options. (o : OptionsRecord) → Spells 1 line.now (opening_step o) → options ≡ o) }
    ensures ends { IfErr result (OptionsEnd line.now) }
{
    let step = match read_line(alloc, line.as_bytes(), 1) {
        Ok(step) => step,
        Err(e) => return Err(malformed(e, 2)),
    };
    let Step { moment: _, act } = step;
    let options = match act {
        Act::Open(options) => options.into_inner(),
        act => {
            drop(act);
            return Err(RunError::Malformed(2));
        }
    };
    match options.check() {
        None => Ok(options),
        Some(_) => {
            drop(options);
            Err(RunError::Malformed(2))
        }
    }
}

// The proxy that the second line opens, over the shares of the first.
fn open_proxy(alloc: Global, line: &str, shares: Vec<u32>) -> Result<Proxy<TopologyCore>, RunError>
    ensures opens { IfOk result (Opens shares.items line.now) }
    ensures ends { IfErr result (OpeningEnds shares.items line.now) }
{
    let options = match read_options(alloc, line) {
        Ok(options) => options,
        Err(e) => return Err(e),
    };
    let max = options.max_pool_size.unwrap_or(DEFAULT_MAX_POOL_SIZE);
    let mut log = Log::new(alloc);
    let core = match TopologyCore::open_seeds(alloc, &mut log, 0, options) {
        Ok(core) => core,
        Err(OutOfMemory) => return Err(RunError::OutOfMemory),
    };
    match Proxy::new(alloc, core, log, shares, max) {
        Ok(proxy) => Ok(proxy),
        Err(ShareError::Shares) => Err(RunError::Malformed(2)),
        Err(ShareError::OutOfMemory) => Err(RunError::OutOfMemory),
    }
}

// What is written for the second line: the line itself, and the answer to it.
fn opening_text(alloc: Global, line: &str, entries: &[Entry]) -> Result<String, OutOfMemory>
    ensures { IfOk result (λ text. (e : EntryRecord) → entries.now ≡ e ∷ [] → string_bytes text ≡ line_text line.now (reply_text e.reply) (e ∷ [])) }
{
    match entries.first() {
        Some(entry) => opening_line(alloc, line, &entry.reply, entries),
        None => Ok(String::new(alloc)),
    }
}

// The entries behind the first ones.
fn behind(entries: &[Entry], first: usize) -> &[Entry]
    ensures { result.now ≡ drop first entries.now }
{
    match entries.get(first..) {
        Some(more) => more,
        None => &[],
    }
}

// The answer to one line from the third on.
fn answer_to(
    alloc: Global,
    line: &str,
    step: ProxyStep,
    proxy: &mut Proxy<TopologyCore>,
) -> Result<String, OutOfMemory>
    requires { SpellsStep line.now step }
    ensures { IfOk result (λ text. Answers proxy.old proxy.new line.now (string_bytes text)) }
{
    let before = proxy.log().len();
    let answer = proxy.step(alloc, step)?;
    if answer.behind {
        return Err(OutOfMemory);
    }
    answer_line(
        alloc,
        line,
        &answer.reply,
        behind(proxy.log().entries(), before),
    )
}

// One line from the third on.
fn one_line<K: Sink>(
    alloc: Global,
    line: &[u8],
    number: u32,
    proxy: &mut Proxy<TopologyCore>,
    sink: &mut K,
) -> Result<(), RunError>
    ensures runs { OnOk result (LineRuns line.now proxy.old proxy.new (K.held sink.old) (K.held sink.new) (K.faults sink.old) (K.faults sink.new)) }
    ensures ends { IfErr result (LineEnds number line.now (K.faults sink.old) (K.faults sink.new)) }
    ensures wrote { IfErr result (LineWrote line.now proxy.old (K.held sink.old) (K.held sink.new)) }
{
    let line = match text_of(line, number) {
        Ok(line) => line,
        Err(e) => return Err(e),
    };
    let step = match read_proxy_line(alloc, line) {
        Ok(step) => step,
        Err(e) => return Err(malformed(e, number)),
    };
    match answer_to(alloc, line, step, proxy) {
        Ok(text) => send(sink, text.as_bytes()),
        Err(OutOfMemory) => Err(RunError::OutOfMemory),
    }
}

// The lines from the third on.
fn more_lines<K: Sink>(
    alloc: Global,
    input: &[u8],
    proxy: &mut Proxy<TopologyCore>,
    sink: &mut K,
) -> Result<(), RunError>
    requires { length input.now ≤ MAX_INPUT }
    ensures run { OnOk result (LinesRun input.now proxy.old proxy.new (K.held sink.old) (K.held sink.new) (K.faults sink.old) (K.faults sink.new)) }
    ensures ends { IfErr result (LinesEnd input.now (K.faults sink.old) (K.faults sink.new)) }
    ensures wrote { IfErr result (LinesWrote input.now proxy.old (K.held sink.old) (K.held sink.new)) }
{
    let mut rest = input;
    let mut number = 3u32;
    while !rest.is_empty() {
        match cut_line(rest) {
            None => return Err(RunError::Malformed(number)),
            Some((line, behind)) => {
                match one_line(alloc, line, number, proxy, sink) {
                    Ok(()) => {}
                    Err(e) => return Err(e),
                }
                rest = behind;
                number += 1;
            }
        }
    }
    Ok(())
}

// The proxy that the second line opens, and what is written for that line.
fn begin<K: Sink>(
    alloc: Global,
    line: &[u8],
    shares: Vec<u32>,
    sink: &mut K,
) -> Result<Proxy<TopologyCore>, RunError>
    ensures begins { IfOk result (Begins shares.items line.now (K.held sink.old) (K.held sink.new) (K.faults sink.old) (K.faults sink.new)) }
    ensures ends { IfErr result (SecondEnds shares.items line.now (K.faults sink.old) (K.faults sink.new)) }
    ensures wrote { IfErr result (SecondWrote shares.items line.now (K.held sink.old) (K.held sink.new)) }
{
    let line = match text_of(line, 2) {
        Ok(line) => line,
        Err(e) => return Err(e),
    };
    let proxy = match open_proxy(alloc, line, shares) {
        Ok(proxy) => proxy,
        Err(e) => return Err(e),
    };
    let text = match opening_text(alloc, line, proxy.log().entries()) {
        Ok(text) => text,
        Err(OutOfMemory) => return Err(RunError::OutOfMemory),
    };
    match send(sink, text.as_bytes()) {
        Ok(()) => Ok(proxy),
        Err(e) => Err(e),
    }
}

// The lines from the second on, for tenants with these shares.
fn with_shares<K: Sink>(
    alloc: Global,
    input: &[u8],
    shares: Vec<u32>,
    sink: &mut K,
) -> Result<Log, RunError>
    requires { length input.now ≤ MAX_INPUT }
    ensures ran { IfOk result (λ log. RunsFrom shares.items input.now log (K.held sink.old) (K.held sink.new) (K.faults sink.old) (K.faults sink.new)) }
    ensures ends { IfErr result (SharesEnd shares.items input.now (K.faults sink.old) (K.faults sink.new)) }
    ensures wrote { IfErr result (SharesWrote shares.items input.now (K.held sink.old) (K.held sink.new)) }
{
    if input.is_empty() {
        return Ok(Log::new(alloc));
    }
    let Some((line, behind)) = cut_line(input) else {
        return Err(RunError::Malformed(2));
    };
    let mut proxy = match begin(alloc, line, shares, sink) {
        Ok(proxy) => proxy,
        Err(e) => return Err(e),
    };
    match more_lines(alloc, behind, &mut proxy, sink) {
        Ok(()) => {
            let (core, log) = proxy.close();
            drop(core);
            Ok(log)
        }
        Err(e) => Err(e),
    }
}

fn run_lines<K: Sink>(alloc: Global, input: &[u8], sink: &mut K) -> Result<Log, RunError>
    requires { length input.now ≤ MAX_INPUT }
    ensures ran { IfOk result (λ log. Ran input.now log (K.held sink.old) (K.held sink.new) (K.faults sink.old) (K.faults sink.new)) }
    ensures ends { IfErr result (RunEnds input.now (K.faults sink.old) (K.faults sink.new)) }
    ensures wrote { IfErr result (RunWrote input.now (K.held sink.old) (K.held sink.new)) }
{
    if input.is_empty() {
        return Ok(Log::new(alloc));
    }
    let Some((line, behind)) = cut_line(input) else {
        return Err(RunError::Malformed(1));
    };
    let line = match text_of(line, 1) {
        Ok(line) => line,
        Err(e) => return Err(e),
    };
    match read_shares(alloc, line) {
        Ok(shares) => with_shares(alloc, behind, shares, sink),
        Err(e) => Err(malformed(e, 1)),
    }
}

fn run<S: Source, K: Sink>(alloc: Global, source: &mut S, sink: &mut K) -> Result<Log, RunError>
    ensures finished { IfOk result (Finished
        (record { left = S.left source.old; reads = S.faults source.old; held = K.held sink.old; writes = K.faults sink.old })
        (record { left = S.left source.new; reads = S.faults source.new; held = K.held sink.new; writes = K.faults sink.new })) }
    ensures ended { IfErr result (Ended
        (record { left = S.left source.old; reads = S.faults source.old; held = K.held sink.old; writes = K.faults sink.old })
        (record { left = S.left source.new; reads = S.faults source.new; held = K.held sink.new; writes = K.faults sink.new })) }
    ensures wrote { IfErr result (Wrote
        (record { left = S.left source.old; reads = S.faults source.old; held = K.held sink.old; writes = K.faults sink.old })
        (record { left = S.left source.new; reads = S.faults source.new; held = K.held sink.new; writes = K.faults sink.new })) }
    ensures few { ReadsFew MAX_INPUT (S.left source.old) (S.left source.new) (S.calls source.old) (S.calls source.new) }
{
    let input = match read_all(alloc, source, MAX_INPUT) {
        Ok(input) => input,
        Err(e) => return Err(e),
    };
    let log = match run_lines(alloc, input.as_slice(), sink) {
        Ok(log) => log,
        Err(e) => return Err(e),
    };
    match sink.flush() {
        Ok(()) => Ok(log),
        Err(_) => Err(RunError::WriteFault),
    }
}

/// Runs a script of a proxy: its first line names the shares of the tenants, its second opens a driver, and each later one is a step of the
/// proxy over it. For each line from the second on it writes the line, the reply to it, and the facts of the entries that the line made. It
/// flushes at the end.
///
/// `Ok` carries the log of the driver, which is empty where there is no second line. `ReadFault` and `WriteFault` come only where the source or
/// the sink failed in this call, `Malformed(n)` at line n, counted from 1, and `TooLong` past 131,072 bytes. `OutOfMemory` comes also where
/// memory ran out before all asks were handed on that could be.
pub fn run_proxy<S: Source, K: Sink>(
    alloc: Global,
    source: &mut S,
    sink: &mut K,
) -> Result<Log, RunError>
    // The input was read to its end, and the sink took, flushed, what the one proxy of the first two lines answered to each line. The driver is handed out that stands for the log.
    ensures finished { IfOk result (Finished
        (record { left = S.left source.old; reads = S.faults source.old; held = K.held sink.old; writes = K.faults sink.old })
        (record { left = S.left source.new; reads = S.faults source.new; held = K.held sink.new; writes = K.faults sink.new })) }
    ensures ended { IfErr result (Ended
        (record { left = S.left source.old; reads = S.faults source.old; held = K.held sink.old; writes = K.faults sink.old })
        (record { left = S.left source.new; reads = S.faults source.new; held = K.held sink.new; writes = K.faults sink.new })) }

    // Where it ends early, the sink took the text of the lines before the end and nothing else; at an error of the sink a front of it.
    ensures wrote { IfErr result (Wrote
        (record { left = S.left source.old; reads = S.faults source.old; held = K.held sink.old; writes = K.faults sink.old })
        (record { left = S.left source.new; reads = S.faults source.new; held = K.held sink.new; writes = K.faults sink.new })) }

    // The source is read at most once more than there are bytes, and at most 131,073 times.
    ensures few { ReadsFew MAX_INPUT (S.left source.old) (S.left source.new) (S.calls source.old) (S.calls source.new) }

    // A script is run to its end where nothing fails, unless memory runs out.
    ensures complete { (input : List ℕ) → S.left source.old ≡ Some input → length input ≤ MAX_INPUT → AreLines (lines_of input)
        → ¬ (Rose (S.faults source.old) (S.faults source.new)) → ¬ (Rose (K.faults sink.old) (K.faults sink.new)) → MatchResult result (λ log. ⊤) (λ e. e ≡ NoMemory) }

    // The first line that has no place in a script is named where nothing fails, unless memory runs out.
    ensures malformed { (input : List ℕ) (number : ℕ) → S.left source.old ≡ Some input → length input ≤ MAX_INPUT → IsBadAt input number
        → ¬ (Rose (S.faults source.old) (S.faults source.new)) → ¬ (Rose (K.faults sink.old) (K.faults sink.new)) → EndsWith (Malformed number) result }

    // An input of more bytes is too long where the source does not fail, unless memory runs out.
    ensures too_long { (input : List ℕ) → S.left source.old ≡ Some input → MAX_INPUT < length input
        → ¬ (Rose (S.faults source.old) (S.faults source.new)) → EndsWith TooLong result }
{
    run(alloc, source, sink)
}
