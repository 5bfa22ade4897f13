//! What the entries of the log make of asks, noted by the place of each ask in the list of all.

ghost use Rattle.std.specs.Prelude.{◌≡◌, ℕ, ◌+◌, ◌∷◌, [], ◌++◌, length, nat_eq};
ghost use Rattle.std.specs.HashMap.{get};
ghost use Rattle.mdb_proxies.specs.Tables.{handed_at, taken_back, noted_at, noted, after_entry, KeepsCharge};

use crate::asked::Note;
use crate::books::{Books, is_refused};
use crate::freed::Freed;
use mdb_log::{Act, Entry};

fn handed_at(at: usize, note: Note) -> Note
    ensures { result ≡ handed_at at note }
{
    if note.handed.is_some() {
        return note;
    }
    Note {
        handed: Some(at),
        returned: note.returned,
    }
}

fn taken_back(note: Note) -> Note
    ensures { result ≡ taken_back note }
{
    Note {
        handed: note.handed,
        returned: true,
    }
}

impl Books {
    // The place of the ask of this number.
    pub fn place(&self, request: u32) -> Option<usize>
        ensures { result ≡ get nat_eq self.now.known request }
    {
        self.known.get(&request).copied()
    }

    // The ask of this number was handed on by the entry at this place of the log, unless an earlier one did.
    fn hand(&mut self, request: u32, at: usize)
        ensures notes { self.new.notes.items ≡ noted_at (get nat_eq self.old.known request) (handed_at at) self.old.notes.items }
        ensures asks { self.new.asks ≡ self.old.asks }
        ensures standing { self.new.standing ≡ self.old.standing }
        ensures known { self.new.known ≡ self.old.known }
    {
        let Some(place) = self.place(request) else {
            return;
        };
        if place < self.notes.len() {
            let note = self.notes[place];
            self.notes[place] = handed_at(at, note);
        }
    }

    // The connection of the request came back.
    fn take_back_from(&mut self, request: u32)
        ensures notes { self.new.notes.items ≡ noted_at (get nat_eq self.old.known request) taken_back self.old.notes.items }
        ensures asks { self.new.asks ≡ self.old.asks }
        ensures standing { self.new.standing ≡ self.old.standing }
        ensures known { self.new.known ≡ self.old.known }
    {
        let Some(place) = self.place(request) else {
            return;
        };
        if place < self.notes.len() {
            let note = self.notes[place];
            self.notes[place] = taken_back(note);
        }
    }

    // What an entry, at this place of the log, makes of the notes.
    fn note(&mut self, entry: &Entry, at: usize)
        ensures notes { self.new.notes.items ≡ noted entry.now at (λ r. get nat_eq self.old.known r) self.old.notes.items }
        ensures asks { self.new.asks ≡ self.old.asks }
        ensures standing { self.new.standing ≡ self.old.standing }
        ensures known { self.new.known ≡ self.old.known }
    {
        match &entry.step.act {
            Act::Request(request, _) => self.hand(*request, at),
            Act::Return(request, _) => {
                if !is_refused(&entry.reply) {
                    self.take_back_from(*request);
                }
            }
            _ => {}
        }
    }

    // What the newest entry, at this place of the log, makes of the books, and where it frees some of a share.
    pub fn take_entry(&mut self, entry: &Entry, at: usize) -> Freed
        ensures notes { self.new.notes.items ≡ noted entry.now at (λ r. get nat_eq self.old.known r) self.old.notes.items }
        ensures asks { self.new.asks ≡ self.old.asks }
        ensures standing { self.new.standing.items ≡ after_entry entry.now self.old.standing.items }
        ensures known { self.new.known ≡ self.old.known }
        ensures freed { KeepsCharge result self.old.standing.items self.new.standing.items }
    {
        self.note(entry, at);
        self.standing.take_entry(entry)
    }
}
