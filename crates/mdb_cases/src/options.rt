//! Options by their words.

use crate::page::Page;
use crate::words::{parted, small};
use mdb_base::{Items, ObjectId, Options};

fn opened(page: &mut Page, seeds: &str) -> Options {
    Options {
        seeds: Items::new(page.addresses(seeds)),
        set_name: None,
        direct: false,
        load_balanced: false,
        max_pool_size: None,
        min_pool_size: None,
        max_connecting: None,
        max_idle_time: None,
        max_wait: None,
        heartbeat: None,
        connect: None,
        streaming: None,
        limit_id: None,
        limit_generation: None,
        limit_pool: None,
        limit_monitor: None,
        topology_id: ObjectId([0; 12]),
    }
}

fn set_option(page: &mut Page, options: &mut Options, name: &str, value: &str) {
    match name {
        "" => {}
        "direct" => options.direct = true,
        "balanced" => options.load_balanced = true,
        "set" => options.set_name = Some(page.text(value)),
        "max" => options.max_pool_size = Some(small(value)),
        "min" => options.min_pool_size = Some(small(value)),
        "connecting" => options.max_connecting = Some(small(value)),
        "pool-limit" => options.limit_pool = Some(small(value)),
        _ => page.put("malformed"),
    }
}

/// The options of the words: first the seeds.
pub fn made_options(page: &mut Page, words: &str) -> Options {
    let (seeds, rest) = parted(words);
    let mut options = opened(page, seeds);
    for word in rest.split(' ') {
        let (name, value) = word.split_once('=').unwrap_or((word, ""));
        set_option(page, &mut options, name, value);
    }
    options
}
