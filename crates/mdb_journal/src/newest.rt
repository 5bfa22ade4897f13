//! What entries tell to those who come later: which of them was the last news, and whether one stopped the driver.

ghost use Rattle.std.specs.Prelude.{◌≡◌, ◌<◌, ◌-◌, ◌≤◌, ◌||◌, length, slice_index_or};
ghost use Rattle.std.specs.List.{list_any};
ghost use Rattle.mdb_log.specs.Driver.{is_done};
ghost use Rattle.mdb_journal.specs.Entries.{stops, news_end, news_then};

use crate::news::is_news;
use mdb_log::{Act, Entry, Log, Reply};

fn is_done(reply: &Reply) -> bool
    ensures { result ≡ is_done reply.now }
{
    matches!(reply, Reply::Done)
}

/// The entry stops the driver.
pub(crate) fn stops(entry: &Entry) -> bool
    ensures { result ≡ stops entry.now }
{
    match &entry.step.act {
        Act::Stop => is_done(&entry.reply),
        _ => false,
    }
}

/// One of the entries stops the driver.
pub(crate) fn any_stops(entries: &[Entry]) -> bool
    ensures { result ≡ list_any stops entries.now }
{
    entries.iter().any(|entry| stops(entry))
}

/// Whether one of the entries stops the driver, where this one comes last.
pub(crate) fn stops_then(entry: &Entry, before: bool) -> bool
    ensures { result ≡ (before || stops entry.now) }
{
    before || stops(entry)
}

/// How many entries there are up to the last one that is news, where this entry is the last of `count` and there were `before` without it.
pub(crate) fn news_then(entry: &Entry, count: u64, before: u64) -> u64
    ensures { result ≡ news_then entry.now count before }
{
    if is_news(entry) { count } else { before }
}

/// How many entries there are up to the last one that is news.
pub(crate) fn news_end(entries: &[Entry]) -> u64
    ensures end { result ≡ news_end entries.now }
    ensures within { result ≤ length entries.now }
{
    let mut end = 0;
    for at in 0..entries.len() {
        end = news_then(&entries[at], at as u64 + 1, end);
    }
    end
}

/// The last entry.
pub(crate) fn newest(log: &Log) -> &Entry
    requires { 0 < length log.now }
    ensures { result.now ≡ slice_index_or log.now (length log.now - 1) result.now }
{
    let entries = log.entries();
    &entries[entries.len() - 1]
}
