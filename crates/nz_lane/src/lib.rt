//! What a node reads: a stream of items, each of them something that happens to the node. Frames are items as they are,
//! so what one node writes another can read.
#![tactic(auto)]

mod item;
mod lane_reader;
mod laws;
mod reading;

pub use item::{Item, ItemRefusal};
pub use lane_reader::{LaneReader, Stop};
pub use laws::{
    later_bytes_change_nothing, no_item_begins_another, one_reading, only_items_are_read,
    what_is_written_is_read,
};
