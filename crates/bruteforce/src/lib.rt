// The rules of the requirements (MANUAL 2 to 5) by brute force, for traces of at most 7 events: which are fit, which
// epochs are finished, what a line loses, which phases and steps there are, worked out from the few events alone, by
// counting them anew in the words of those rules. It names nothing of the engine: gate programs hold the engine to it.
// Events come as arrays of words with their size, and a kind as a number: docs/DECISIONS.md names the functions that
// take them, and an `Event` would ask more of callers (what may not change). Assumes nothing.
#![tactic(auto)]

mod events;
mod rules;
pub mod word;

pub use events::{Event, Failure, Kind, STAYS};
pub use rules::{Fault, Refusal, epoch_by, loses, phases_at, record, steps, verdict};
