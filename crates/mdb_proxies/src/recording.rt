//! Asks written into the books and taken out again.

ghost use Rattle.std.specs.Prelude.{◌≡◌, ℕ, ◌==◌, ◌++◌, ◌∷◌, [], List, true, length, nat_eq, ◌<◌, if◌then◌else◌, Some, None, OnOk, OnErr, vec_len};
ghost use Rattle.std.specs.HashMap.{get};
ghost use Rattle.mdb_proxies.specs.declared.asked.Asked.{Asked};
ghost use Rattle.mdb_proxies.specs.declared.asked.Standing.{Standing};
ghost use Rattle.mdb_proxies.specs.declared.asked.Note.{Note};
ghost use Rattle.mdb_proxies.specs.Recording.{told_at};
ghost use Rattle.mdb_proxies.specs.Telling.{told_if};
ghost use Rattle.mdb_proxies.specs.Tables.{standing_of, blank};

use crate::asked::{Asked, Note, Standing};
use crate::books::Books;
use crate::standings::StandingAsks;
use mdb_base::OutOfMemory;
use std::alloc::Global;
use std::collections::HashMap;

impl Books {
    pub fn new(alloc: Global) -> Books
        ensures asks { result.asks.items ≡ [] }
        ensures standing { result.standing.items ≡ [] }
        ensures notes { result.notes.items ≡ [] }
        ensures known { (r : ℕ) → get nat_eq result.known r ≡ None }
    {
        Books {
            asks: Vec::new(alloc),
            standing: StandingAsks::new(alloc),
            notes: Vec::new(alloc),
            known: HashMap::new(alloc),
        }
    }

    // One ask more, held back.
    pub fn record(&mut self, ask: Asked) -> Result<(), OutOfMemory>
        ensures asks { OnOk result (self.new.asks.items ≡ self.old.asks.items ++ ask ∷ []) }
        ensures standing { OnOk result (self.new.standing.items ≡ self.old.standing.items ++ standing_of ask true ∷ []) }
        ensures notes { OnOk result (self.new.notes.items ≡ self.old.notes.items ++ blank ∷ []) }
        ensures known { OnOk result ((r : ℕ) → get nat_eq self.new.known r ≡ if r == ask.request then Some (length self.old.asks.items) else get nat_eq self.old.known r) }
        ensures err { OnErr result ((self.new.asks.items ≡ self.old.asks.items) × (self.new.standing.items ≡ self.old.standing.items) × (self.new.notes.items ≡ self.old.notes.items) × ((r : ℕ) → get nat_eq self.new.known r ≡ get nat_eq self.old.known r)) }
    {
        let one = Standing {
            tenant: ask.tenant,
            request: ask.request,
            address: ask.address.clone()?,
            held: true,
        };
        self.asks.reserve(1)?;
        self.notes.reserve(1)?;
        self.standing.push(one)?;
        if self.known.insert(ask.request, self.asks.len()).is_err() {
            self.standing.pop();
            return Err(OutOfMemory);
        }
        self.asks.push_reserved(ask);
        self.notes.push_reserved(Note {
            handed: None,
            returned: false,
        });
        Ok(())
    }

    // The newest ask is taken out of the lists, but not of those that stand.
    pub fn forget(&mut self)
        ensures asks { (xs : List Asked) (x : Asked) → self.old.asks.items ≡ xs ++ x ∷ [] → self.new.asks.items ≡ xs }
        ensures known { (xs : List Asked) (x : Asked) → self.old.asks.items ≡ xs ++ x ∷ [] → (r : ℕ) → get nat_eq self.new.known r ≡ if r == x.request then None else get nat_eq self.old.known r }
        ensures notes { (ns : List Note) (n : Note) → self.old.notes.items ≡ ns ++ n ∷ [] → self.new.notes.items ≡ ns }
        ensures standing { self.new.standing ≡ self.old.standing }
    {
        if let Some(ask) = self.asks.pop() {
            self.known.remove(&ask.request);
        }
        self.notes.pop();
    }

    // The newest ask, which stands last, is taken out of all.
    pub fn take_back(&mut self)
        ensures asks { (xs : List Asked) (x : Asked) → self.old.asks.items ≡ xs ++ x ∷ [] → self.new.asks.items ≡ xs }
        ensures known { (xs : List Asked) (x : Asked) → self.old.asks.items ≡ xs ++ x ∷ [] → (r : ℕ) → get nat_eq self.new.known r ≡ if r == x.request then None else get nat_eq self.old.known r }
        ensures notes { (ns : List Note) (n : Note) → self.old.notes.items ≡ ns ++ n ∷ [] → self.new.notes.items ≡ ns }
        ensures standing { (os : List Standing) (o : Standing) → self.old.standing.items ≡ os ++ o ∷ [] → self.new.standing.items ≡ os }
    {
        self.standing.pop();
        self.forget();
    }

    // The caller of the ask at this place was told what it came to.
    pub fn tell(&mut self, place: usize)
        requires { place < length self.old.asks.items }
        ensures asks { self.new.asks.items ≡ told_at place self.old.asks.items }
        ensures standing { self.new.standing ≡ self.old.standing }
        ensures notes { self.new.notes ≡ self.old.notes }
        ensures known { self.new.known ≡ self.old.known }
    {
        self.asks[place].told = true;
    }

    // The caller of the newest ask was told what it came to, if so.
    pub fn tell_newest(&mut self, told: bool)
        ensures asks { (xs : List Asked) (x : Asked) → self.old.asks.items ≡ xs ++ x ∷ [] → self.new.asks.items ≡ xs ++ told_if told x ∷ [] }
        ensures standing { self.new.standing ≡ self.old.standing }
        ensures notes { self.new.notes ≡ self.old.notes }
        ensures known { self.new.known ≡ self.old.known }
    {
        let count = self.asks.len();
        if !told {
            return;
        }
        if count == 0 {
            return;
        }
        self.tell(count - 1);
    }
}
