//! A thread's worker: it carries a script out over any handle on a yard, one event at each turn.
//!
//! A worker keeps its script and the place in it, how many commands it may still carry out in the epoch, the end that it told last, what it
//! has in hand, and the checkpoints that it released. Its states are what it has in hand ([`Hand`]): nothing, and then it stands at its
//! restart point or runs between two rooms; the room of its command, with the reply, while stores are left and until its entry is drawn;
//! a room that goes home; its own room, while its restart point is written; a closing. What every cut leaves in each of these is said of rooms
//! in hand, and of the whole yard.
//!
//! A contract sees these fields. `IsWorker` is what holds of a worker and its thread's view between two turns. Proved here: that a turn does
//! the event of the first row of the table that applies (`worker_model`), or rests where that row rests, and nothing else; that it may rest or
//! wait only by a look of that turn; that it is over only where the power was seen off or a word that was met shows so; and that each event
//! counts one between the least and the most that a worker may have done. A turn takes memory for a command's stores and for a mark alone,
//! before the command's first store and before the claim. That the threads of a yard together make a lawful life is proved above.
#![tactic(auto)]

mod closing;
mod commands;
mod gate;
mod giving_up;
mod laws;
mod own;
mod slot;
mod standing;
mod worker;

pub use gate::{Gate, NoGate};
pub use laws::{stays_laws, worked_law};
pub use worker::Worker;
pub use worker_model::{Hand, Turn};
