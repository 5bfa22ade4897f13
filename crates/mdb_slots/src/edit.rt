//! Changes of a list, each of which can be taken back and made again.

ghost use Rattle.std.specs.Prelude.{◌≡◌, ◌≤◌, ◌+◌, vec_len, vec_capacity};
ghost use Rattle.mdb_slots.specs.Edits.{undo, redo, unwound, rewound, pushes, grows};

use std::mem;

/// What takes a change back, or makes it again.
#[derive(Drop)]
pub enum Edit<T: Drop> {
    /// A value came last.
    Grew,
    /// The value comes last.
    Grow(T),
    /// The value stood, or is to stand, at this place.
    Put(usize, T),
}

// The change is taken back, and what comes back makes it again.
pub(crate) fn undo_edit<T: Drop>(items: &mut Vec<T>, change: Edit<T>) -> Edit<T>
    ensures items { items.new.items ≡ undo change items.old.items }
    ensures again { redo result items.new.items ≡ items.old.items }
    ensures room { pushes result + vec_len items.new ≤ vec_len items.old }
    ensures capacity { vec_capacity items.new ≡ vec_capacity items.old }
{
    match change {
        Edit::Grew => {
            if let Some(value) = items.pop() {
                return Edit::Grow(value);
            }
            Edit::Grew
        }
        Edit::Grow(value) => Edit::Put(items.len(), value),
        Edit::Put(at, value) => {
            if at < items.len() {
                let old = mem::replace(&mut items[at], value);
                return Edit::Put(at, old);
            }
            Edit::Put(at, value)
        }
    }
}

// The change is made again. A push stays within the capacity.
pub(crate) fn redo_edit<T: Drop>(items: &mut Vec<T>, change: Edit<T>)
    requires { pushes change + vec_len items.old ≤ vec_capacity items.old }
    ensures items { items.new.items ≡ redo change items.old.items }
    ensures len { vec_len items.new ≡ pushes change + vec_len items.old }
    ensures capacity { vec_capacity items.new ≡ vec_capacity items.old }
{
    match change {
        Edit::Grew => {}
        Edit::Grow(value) => items.push_reserved(value),
        Edit::Put(at, value) => {
            if at < items.len() {
                items[at] = value;
            }
        }
    }
}

// Each change of the log is taken back, the newest first, and what comes back stands in its place.
pub(crate) fn undo_all<T: Drop>(items: &mut Vec<T>, log: &mut Vec<Edit<T>>)
    ensures items { items.new.items ≡ unwound log.old.items items.old.items }
    ensures again { rewound log.new.items items.new.items ≡ items.old.items }
    ensures room { grows log.new.items + vec_len items.new ≤ vec_len items.old }
    ensures capacity { vec_capacity items.new ≡ vec_capacity items.old }
{
    let mut at = log.len();
    while at > 0 {
        at -= 1;
        let change = mem::replace(&mut log[at], Edit::Grew);
        let undone = undo_edit(items, change);
        log[at] = undone;
    }
}

// Each change of the log is made again. What stands in the log means nothing then.
pub(crate) fn redo_all<T: Drop>(items: &mut Vec<T>, log: &mut Vec<Edit<T>>)
    requires { grows log.old.items + vec_len items.old ≤ vec_capacity items.old }
    ensures items { items.new.items ≡ rewound log.old.items items.old.items }
    ensures capacity { vec_capacity items.new ≡ vec_capacity items.old }
{
    let changes = log.len();
    for at in 0..changes {
        let change = mem::replace(&mut log[at], Edit::Grew);
        redo_edit(items, change);
    }
}
