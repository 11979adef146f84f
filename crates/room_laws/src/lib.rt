//! The laws of rooms: what each command writes, what a room stands for, and what follows from stores.
//!
//! The crate keeps no data and has no code: each public function has an empty body, and its contract is a law, stated in `specs/`.
//! A law speaks of a room as a function from line and word to a number, and of the writes of a command as a function of that room.
//! So it holds alike of what loads give, of what a power cut leaves and of what a plan is going to store. A caller sees facts over
//! plain data alone: no memory, no epoch and no lock stands in them, but for the epoch that tags the stores of a write.
//!
//! - `map_rows` and `queue_rows` have one law for each row of the table of writes, for every layout of the bucket heads;
//! - `commands` has all rows at once, for a command in its room: the answer is the sequential object's reply, and the room behind the
//!   writes stands for what the object holds next;
//! - `stocks` has what a header says, which line is taken, how the chains and the free lines lie apart, and where the walk for a key goes;
//! - `rooms` has that a room stands for one contents, which walks over its words give, and that only record words count;
//! - `stores` ties the planned stores of writes to the writes.
//!
//! All laws are proved here. That the code of the rooms makes these writes, in this order, is proved in the crates above. Nothing here
//! is tested, since nothing runs.
#![tactic(auto)]

mod commands;
mod map_rows;
mod queue_rows;
mod rooms;
mod stocks;
mod stores;

pub use commands::{command_after_law, command_reply_law, other_command_law, room_step_law};
pub use map_rows::{
    del_absent_law, del_present_law, get_law, layouts_law, map_full_law, put_absent_law,
    put_present_law,
};
pub use queue_rows::{deq_empty_law, deq_law, enq_law, queue_full_law};
pub use rooms::{
    contents_law, formatted_law, is_room_law, map_formatted_law, map_pairs_law, map_words_law,
    part_law, queue_formatted_law, queue_items_law, queue_words_law, within_law, words_law,
};
pub use stocks::{
    counting_law, map_bounds_law, map_chains_law, map_header_law, map_take_law, queue_bounds_law,
    queue_chains_law, queue_header_law, queue_take_law, walk_law,
};
pub use stores::{
    command_stores_law, command_within_law, planned_write_law, store_counts_law,
    stores_in_pieces_law, stores_law, stores_within_law,
};
