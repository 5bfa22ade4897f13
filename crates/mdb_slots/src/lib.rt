//! What changes in place: records in slots that are used again, tables of values by number, and open lists, whose changes can be taken back and
//! made again without memory.
#![tactic(auto)]

mod bucket;
mod edit;
mod ends;
mod index_entry;
mod keyed;
mod maybe_slot;
mod naming;
mod node;
mod number_set;
mod number_steps;
mod indexed_slots;
mod records;
mod side_parts;
mod sided;
mod sides;
mod slot_index;
mod slot_order;
mod slot_table;
mod slots;
mod storage;
mod table;
mod touches;
mod undo_list;
mod undo_cell;
mod visits;

pub use edit::Edit;
pub use keyed::Keyed;
pub use number_set::NumberSet;
pub use number_steps::NumberSetRedo;
pub use records::{Record, SlotRef};
pub use sided::Sided;
pub use sides::{Sides, SidesRedo};
pub use slot_table::SlotTable;
pub use table::{Table, TableRedo};
pub use touches::Touches;
pub use undo_list::{Redo, UndoList};
pub use undo_cell::UndoCell;
