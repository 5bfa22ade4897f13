//! What is to be measured, as words of the command line say it.

ghost use Rattle.std.specs.Prelude.{IfSome, ◌≤◌};
ghost use Rattle.mdb_bench.specs.Plans.{IsWithin};

/// What wrong words are answered.
pub const USAGE: &str =
    "usage: mdb_bench [KIND ROUNDS THREADS SERVERS CONNECTIONS] .. (KIND: available, waiting, lasting, calm, taken, kept or proxy; the numbers: 0 to 1000000000, 1 to 32, 1 to 128, 1 to 10000)";

/// So many words are a plan.
pub const WORDS: usize = 5;

const MOST_ROUNDS: u32 = 1_000_000_000;

const MOST_THREADS: u32 = 32;

const MOST_SERVERS: u32 = 128;

const MOST_CONNECTIONS: u32 = 10_000;

/// What is stepped, and how.
#[derive(Clone, Copy)]
pub enum Kind {
    /// One pool, all of whose connections are available.
    Available,
    /// One pool, all of whose connections are held while as many callers wait.
    Waiting,
    /// A driver, by one thread. From time to time a pool is cleared, and the last server goes and comes.
    Lasting,
    /// A driver, by one thread, of which nothing goes wrong and all connections are established.
    Calm,
    /// A driver that threads share, while one takes the entries.
    Taken,
    /// A driver that threads share, while nobody takes an entry.
    Kept,
    /// A proxy with a tenant and a share of one for each connection.
    Proxy,
}

const KINDS: [(&str, Kind); 7] = [
    ("available", Kind::Available),
    ("waiting", Kind::Waiting),
    ("lasting", Kind::Lasting),
    ("calm", Kind::Calm),
    ("taken", Kind::Taken),
    ("kept", Kind::Kept),
    ("proxy", Kind::Proxy),
];

/// So many rounds, by each of so many threads, over servers with so many connections each. A kind passes over the numbers that it has no use for.
#[derive(Clone, Copy)]
pub struct Plan {
    pub kind: Kind,
    pub rounds: u32,
    pub threads: u32,
    pub servers: u32,
    pub connections: u32,
}

fn read_kind(word: &str) -> Option<Kind> {
    for (name, kind) in &KINDS {
        if *name == word {
            return Some(*kind);
        }
    }
    None
}

// The number that the word spells, if it is one of these.
fn read_number(word: &str, least: u32, most: u32) -> Option<u32>
    ensures least { IfSome result (λ n. least ≤ n) }
    ensures most { IfSome result (λ n. n ≤ most) }
{
    match word.parse::<u32>() {
        Ok(number) if least <= number && number <= most => Some(number),
        _ => None,
    }
}

impl Plan {
    /// Whether threads share the driver.
    pub fn is_shared(self) -> bool {
        matches!(self.kind, Kind::Taken | Kind::Kept)
    }

    /// The plan that these words name.
    pub fn read(words: &[String]) -> Option<Plan>
        ensures { IfSome result IsWithin }
    {
        let [kind, rounds, threads, servers, connections] = words else {
            return None;
        };
        let kind = read_kind(kind.as_str())?;
        let rounds = read_number(rounds.as_str(), 0, MOST_ROUNDS)?;
        let threads = read_number(threads.as_str(), 1, MOST_THREADS)?;
        let servers = read_number(servers.as_str(), 1, MOST_SERVERS)?;
        let connections = read_number(connections.as_str(), 1, MOST_CONNECTIONS)?;
        Some(Plan {
            kind,
            rounds,
            threads,
            servers,
            connections,
        })
    }
}
