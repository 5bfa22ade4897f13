//! Spans of numbers, in their order.

ghost use Rattle.std.specs.Prelude.{◌≡◌, ◌<◌, ◌≤◌, ◌-◌, ℕ, [], length, vec_len, vec_capacity};
ghost use Rattle.std.specs.List.{insert};
ghost use Rattle.mdb_intervals.specs.Spans.{AreApart, begins_after, ended, put};

/// The numbers from one to another, both of which belong to it.
#[derive(Clone, Copy, Debug, PartialEq, Eq)]
pub struct Span {
    pub from: u32,
    pub to: u32,
}

/// All spans go to where there is none, and room for them. It takes no memory.
pub(crate) fn move_all(from: &mut Vec<Span>, to: &mut Vec<Span>)
    requires none { to.old.items ≡ [] }
    requires room { length from.old.items ≤ vec_capacity to.old }
    ensures to { to.new.items ≡ from.old.items }
    ensures from { from.new.items ≡ [] }
    ensures capacity { (vec_capacity to.new ≡ vec_capacity to.old) × (vec_capacity from.new ≡ vec_capacity from.old) }
{
    for at in 0..from.len() {
        to.push_reserved(from[at]);
    }
    from.clear();
}

/// How many of the spans end before the number.
pub(crate) fn ended(spans: &[Span], number: u32) -> usize
    requires { AreApart 0 spans.now }
    ensures count { result ≡ ended number spans.now }
    ensures within { result ≤ length spans.now }
{
    let mut low = 0;
    let mut high = spans.len();
    while low < high {
        let middle = low + (high - low) / 2;
        if spans[middle].to < number {
            low = middle + 1;
        } else {
            high = middle;
        }
    }
    low
}

// The number comes as a span of its own. It takes no memory.
fn put_alone(spans: &mut Vec<Span>, at: usize, number: u32)
    requires within { at ≤ length spans.old.items }
    requires room { vec_len spans.old < vec_capacity spans.old }
    ensures items { spans.new.items ≡ insert spans.old.items at (record { from = number; to = number }) }
    ensures capacity { vec_capacity spans.new ≡ vec_capacity spans.old }
{
    let alone = Span {
        from: number,
        to: number,
    };
    match spans.insert(at, alone) {
        Ok(()) => {}
        Err(_) => unreachable!(),
    }
}

// The first of the spans begins right after the number.
fn begins_after(spans: &[Span], number: u32) -> bool
    ensures { result ≡ begins_after number spans.now }
{
    match spans.first() {
        Some(span) => number < span.from && span.from - number == 1,
        None => false,
    }
}

/// The number comes, if it isn't there. It takes no memory.
pub(crate) fn put(spans: &mut Vec<Span>, number: u32)
    requires apart { AreApart 0 spans.old.items }
    requires room { vec_len spans.old < vec_capacity spans.old }
    ensures items { spans.new.items ≡ put number spans.old.items }
    ensures capacity { vec_capacity spans.new ≡ vec_capacity spans.old }
{
    let at = ended(spans.as_slice(), number.saturating_sub(1));
    if at == spans.len() {
        put_alone(spans, at, number);
        return;
    }
    let span = spans[at];
    if number < span.from {
        if 1 < span.from - number {
            put_alone(spans, at, number);
        } else {
            spans[at].from = number;
        }
    } else if span.to < number {
        if begins_after(&spans[at + 1..], number) {
            spans[at].to = spans[at + 1].to;
            let _gone = spans.remove(at + 1);
        } else {
            spans[at].to = number;
        }
    }
}
