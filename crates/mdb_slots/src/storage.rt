//! The storage of a list.

ghost use Rattle.std.specs.Prelude.{◌≡◌, ◌≤◌, ◌+◌, ◌++◌, [], None, vec_len, vec_capacity, option_map, IfSome, IfOk, OnOk, OnErr};
ghost use Rattle.mdb_slots.specs.Open.{or_else};

use mdb_base::OutOfMemory;
use std::mem;

// The items of one list come last in the other, in their order.
fn pour<T: Drop>(from: &mut Vec<T>, to: &mut Vec<T>)
    requires { vec_len from.old + vec_len to.old ≤ vec_capacity to.old }
    ensures items { to.new.items ≡ to.old.items ++ from.old.items }
    ensures none { from.new.items ≡ [] }
    ensures capacity { vec_capacity to.new ≡ vec_capacity to.old }
    ensures own { vec_capacity from.new ≡ vec_capacity from.old }
{
    from.reverse();
    while let Some(value) = from.pop() {
        to.push_reserved(value);
    }
}

/// The items move to the other storage, if there is one, and their own comes back. It takes no memory.
pub(crate) fn move_to<T: Drop>(items: &mut Vec<T>, storage: Option<Vec<T>>) -> Option<Vec<T>>
    requires empty { IfSome storage (λ v. v.items ≡ []) }
    requires fits { IfSome storage (λ v. vec_len items.old ≤ vec_capacity v) }
    ensures items { items.new.items ≡ items.old.items }
    ensures capacity { vec_capacity items.new ≡ or_else (option_map (λ v. vec_capacity v) storage) (vec_capacity items.old) }
    ensures own { option_map (λ v. vec_capacity v) result ≡ option_map (λ v. vec_capacity items.old) storage }
    ensures empty { IfSome result (λ v. v.items ≡ []) }
{
    match storage {
        Some(mut other) => {
            pour(items, &mut other);
            Some(mem::replace(items, other))
        }
        None => None,
    }
}

/// There is no other storage any more.
#[cold]
#[inline(never)]
pub(crate) fn drop_storage<T: Drop>(storage: &mut Option<Vec<T>>)
    ensures { storage.new ≡ None }
{
    *storage = None;
}

/// The items move to storage that is at least twice as large and has room for so many more, and their own comes back.
#[cold]
#[inline(never)]
pub(crate) fn enlarge<T: Drop>(items: &mut Vec<T>, more: usize) -> Result<Vec<T>, OutOfMemory>
    ensures items { items.new.items ≡ items.old.items }
    ensures within { OnOk result (vec_len items.new + more ≤ vec_capacity items.new) }
    ensures longer { vec_capacity items.old ≤ vec_capacity items.new }
    ensures own { IfOk result (λ v. vec_capacity v ≡ vec_capacity items.old) }
    ensures empty { IfOk result (λ v. v.items ≡ []) }
    ensures same { OnErr result (vec_capacity items.new ≡ vec_capacity items.old) }
{
    let capacity = items.capacity();
    if usize::MAX - items.len() < more {
        return Err(OutOfMemory);
    }
    let wanted = capacity.saturating_mul(2).max(items.len() + more);
    let mut larger = Vec::new(*items.allocator());
    larger.reserve(wanted)?;
    pour(items, &mut larger);
    Ok(mem::replace(items, larger))
}
