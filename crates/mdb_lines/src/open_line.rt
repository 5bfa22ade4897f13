//! Reading the first line.

ghost use Rattle.std.specs.Prelude.{◌≡◌, Option, Bool, option_copied, option_map, IfSome, true, drop, ◌∷◌, List};
ghost use Rattle.mdb_base.specs.declared.options.Options.{Options};
ghost use Rattle.mdb_parts.specs.Parts.{Part, parts_text, may_follow};
ghost use Rattle.mdb_lines.specs.OpenLine.{mode_text, open_parts};
ghost use Rattle.mdb_lines.specs.Grammar.{is_zero_id};
ghost use Rattle.mdb_lines.specs.OpenReading.{kind_of_set, sizes_of, checks_of, limits_of};
ghost use Rattle.mdb_lines.specs.Types.{AreOptionsOfTypes};
ghost use Rattle.mdb_parts.specs.Reading.{lacks, Gives, GivesFirst};
ghost use Rattle.mdb_lines.specs.Forms.{ReadsOpen};

use mdb_base::{Items, Moment, ObjectId, Options, ServerAddress, Text};
use mdb_events::Boxed;
use mdb_log::{Act, Step};
use mdb_parts::LineError;
use mdb_parts::parts::{flag_part, part, text_part, u32_part, u64_part};
use mdb_parts::values::addresses_word;
use mdb_parts::words::field;
use std::alloc::Global;

// The first three optional parts.
#[derive(Drop)]
struct SetKind {
    name: Option<Text>,
    direct: bool,
    load_balanced: bool,
}

// The next five, which are about pools.
#[derive(Clone, Copy)]
struct PoolSizes {
    max: Option<u32>,
    min: Option<u32>,
    connecting: Option<u32>,
    idle: Option<Moment>,
    wait: Option<Moment>,
}

// The next three, which are about monitoring.
#[derive(Clone, Copy)]
struct CheckOptions {
    heartbeat: Option<Moment>,
    connect: Option<Moment>,
    streaming: Option<bool>,
}

// The last four.
#[derive(Clone, Copy)]
struct LimitOptions {
    id: Option<u32>,
    generation: Option<u64>,
    pool: Option<u32>,
    monitor: Option<u32>,
}

fn optional_mode(word: Option<&str>) -> Option<bool>
    ensures { (o : Option Bool) → option_copied word.entry ≡ option_map mode_text o → result ≡ o }
{
    match word {
        None => None,
        Some(word) => Some(word == "stream"),
    }
}

#[tactic(auto, using(crate::proofs::OpenLemmas::mode_lacks))]
fn mode_part<'a>(text: &'a str, name: &str) -> (Option<bool>, &'a str)
    ensures { (o : Option Bool) (ps : List Part) → may_follow name.now ps ≡ true → text.now ≡ parts_text ((name.now, option_map mode_text o) ∷ ps)
        → (result.0 ≡ o) × (result.1.now ≡ parts_text ps) }
{
    let (word, left) = part(text, name);
    (optional_mode(word), left)
}

fn set_kind(alloc: Global, text: &str) -> Result<(SetKind, &str), LineError>
    ensures { (o : Options) → IfSome o.set_name (λ w. lacks 32 w ≡ true) → text.now ≡ parts_text (open_parts o)
        → GivesFirst (kind_of_set o) (parts_text (drop 3 (open_parts o))) result }
{
    let (name, rest) = text_part(alloc, text, " set=")?;
    let (direct, rest) = flag_part(rest, " direct");
    let (load_balanced, rest) = flag_part(rest, " lb");
    let kind = SetKind {
        name,
        direct,
        load_balanced,
    };
    Ok((kind, rest))
}

fn pool_sizes(text: &str) -> (PoolSizes, &str)
    ensures { (o : Options) → AreOptionsOfTypes o → text.now ≡ parts_text (drop 3 (open_parts o))
        → (result.0 ≡ sizes_of o) × (result.1.now ≡ parts_text (drop 8 (open_parts o))) }
{
    let (max, rest) = u32_part(text, " max=");
    let (min, rest) = u32_part(rest, " min=");
    let (connecting, rest) = u32_part(rest, " connecting=");
    let (idle, rest) = u64_part(rest, " idle=");
    let (wait, rest) = u64_part(rest, " wait=");
    let sizes = PoolSizes {
        max,
        min,
        connecting,
        idle,
        wait,
    };
    (sizes, rest)
}

fn check_options(text: &str) -> (CheckOptions, &str)
    ensures { (o : Options) → AreOptionsOfTypes o → text.now ≡ parts_text (drop 8 (open_parts o))
        → (result.0 ≡ checks_of o) × (result.1.now ≡ parts_text (drop 11 (open_parts o))) }
{
    let (heartbeat, rest) = u64_part(text, " heartbeat=");
    let (connect, rest) = u64_part(rest, " connect=");
    let (streaming, rest) = mode_part(rest, " mode=");
    let checks = CheckOptions {
        heartbeat,
        connect,
        streaming,
    };
    (checks, rest)
}

fn limit_options(text: &str) -> LimitOptions
    ensures { (o : Options) → AreOptionsOfTypes o → text.now ≡ parts_text (drop 11 (open_parts o)) → result ≡ limits_of o }
{
    let (id, rest) = u32_part(text, " limit_id=");
    let (generation, rest) = u64_part(rest, " limit_generation=");
    let (pool, rest) = u32_part(rest, " limit_pool=");
    let (monitor, _rest) = u32_part(rest, " limit_monitor=");
    LimitOptions {
        id,
        generation,
        pool,
        monitor,
    }
}

// The options of a script, whose topology has an id of zero bytes.
fn options_of(
    seeds: Items<ServerAddress>,
    kind: SetKind,
    sizes: PoolSizes,
    checks: CheckOptions,
    limits: LimitOptions,
) -> Options
    ensures { (o : Options) → is_zero_id o.topology_id ≡ true → seeds ≡ o.seeds → kind ≡ kind_of_set o → sizes ≡ sizes_of o → checks ≡ checks_of o → limits ≡ limits_of o → result ≡ o }
{
    Options {
        seeds,
        set_name: kind.name,
        direct: kind.direct,
        load_balanced: kind.load_balanced,
        max_pool_size: sizes.max,
        min_pool_size: sizes.min,
        max_connecting: sizes.connecting,
        max_idle_time: sizes.idle,
        max_wait: sizes.wait,
        heartbeat: checks.heartbeat,
        connect: checks.connect,
        streaming: checks.streaming,
        limit_id: limits.id,
        limit_generation: limits.generation,
        limit_pool: limits.pool,
        limit_monitor: limits.monitor,
        topology_id: ObjectId([0; 12]),
    }
}

/// The first line: its seeds and its options.
pub(crate) fn opened(alloc: Global, text: &str) -> Result<Step, LineError>
    ensures { ReadsOpen text.now result }
{
    let (word, rest) = field(text, " seeds=")?;
    let seeds = addresses_word(alloc, word)?;
    let (kind, rest) = set_kind(alloc, rest)?;
    let (sizes, rest) = pool_sizes(rest);
    let (checks, rest) = check_options(rest);
    let limits = limit_options(rest);
    let options = options_of(seeds, kind, sizes, checks, limits);
    Ok(Step {
        moment: 0,
        act: Act::Open(Boxed::new(alloc, options)?),
    })
}
