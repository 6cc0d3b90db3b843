// A line lowered until it loses no message: a worklist of processes that may have undone events not looked at.
// specs/Inner/Lowering says what lowering at an event does and when it is done. Assumes nothing.
#![tactic(auto)]

ghost use Rattle.std.specs.Prelude.{◌≡◌, ℕ, ◌<◌, length, get_or, set};
ghost use Rattle.recovery_line.specs.Inner.Words.{Sized};
ghost use Rattle.positions.specs.Inner.Positions.{Linked, NewestRanged, Before};
ghost use Rattle.lowering.specs.Inner.Lowering.{lost_w, lower_at, Lowered, joined_by, undone_w, Lowerable, Lookable};

use columns::{EPOCH_BASE, LOGGED_BASE};
use sets::EVERYONE;
use trace::EVENT_BASE;
use trace::kinds::Kind;

// Where event e receives a message that the line loses, its sender is lowered to the epoch of the send, or to its
// latest finished epoch where that is smaller; whether that is so.
#[tactic(auto, unfolding(crate::specs::Inner::Lowering::lost_w, crate::specs::Inner::Lowering::lost_e, crate::specs::Inner::Lowering::lower_at))]
fn lower_at(full: &[u32], finished: &[u32], epochs: &mut [u32], e: usize) -> bool
    requires { Lowerable full.now finished.now epochs.old e }
    ensures line { epochs.new ≡ lower_at full.now finished.now epochs.old e }
    ensures lost { result ≡ lost_w full.now epochs.old e }
{
    let w = full[EVENT_BASE + e];
    if Kind::of(w) != Kind::Receive {
        return false;
    }
    if full[LOGGED_BASE + e] == 1 {
        return false;
    }
    let q = trace::process(w);
    let p = trace::peer(w);
    if epochs[q] > full[EPOCH_BASE + e] {
        return false;
    }
    let sent = full[EPOCH_BASE + columns::matched(full, e)];
    if epochs[p] <= sent {
        return false;
    }
    epochs[p] = sent.min(finished[p]);
    true
}

// Does the line undo the newest event of process z that was not looked at yet.
fn undoes(full: &[u32], epochs: &[u32], latest: &[u16], z: usize) -> bool
    requires { NewestRanged full.now epochs.now latest.now × (z < 64) }
    ensures { result ≡ undone_w full.now epochs.now latest.now z }
{
    let e = usize::from(latest[z]);
    e != 0 && epochs[z] <= full[EPOCH_BASE + e]
}

// Looks at the newest event of process z that was not looked at yet. A sender that is lowered joins those that may have
// undone events not looked at.
fn look(
    full: &[u32],
    finished: &[u32],
    earlier: &[u16],
    epochs: &mut [u32],
    latest: &mut [u16],
    pending: u64,
    z: usize,
) -> u64
    requires { Lookable full.now finished.now earlier.now epochs.old latest.old z }
    ensures line { epochs.new ≡ lower_at full.now finished.now epochs.old (get_or latest.old z 0) }
    ensures rest { latest.new ≡ set latest.old z (get_or earlier.now (get_or latest.old z 0) 0) }
    ensures pending { result ≡ joined_by full.now epochs.old (get_or latest.old z 0) pending }
{
    let e = usize::from(latest[z]);
    latest[z] = earlier[e];
    if lower_at(full, finished, epochs, e) {
        return sets::with(pending, trace::peer(full[EVENT_BASE + e]));
    }
    pending
}

// Lowers the line until it loses no message, where the events up to the cut are linked and `finished` has the latest
// finished epoch of each process. An undone event is looked at once: then its message is logged, or its sender restarts
// no later than the send, and since numbers only fall that stays so. An event that is not undone receives no lost
// message. `latest` is left with the newest event of each process before its restart. The loop takes one process after
// another from a set that grows: it counts no index.
pub fn lower(
    full: &[u32],
    finished: &[u32],
    earlier: &[u16],
    epochs: &mut [u32; 64],
    latest: &mut [u16],
)
    requires { (length finished.now ≡ 64) × (length epochs.old ≡ 64) × ((cut : ℕ) × Sized full.now cut × Linked full.now cut earlier.now latest.old) }
    ensures line { (cut : ℕ) → Sized full.now cut → Linked full.now cut earlier.now latest.old → Lowered full.now finished.now cut epochs.old epochs.new }
    ensures left { (cut : ℕ) → Sized full.now cut → Linked full.now cut earlier.now latest.old → Before full.now cut epochs.new latest.new }
{
    let mut pending = EVERYONE;
    while pending != 0 {
        let z = sets::first(pending);
        if undoes(full, epochs, latest, z) {
            pending = look(full, finished, earlier, epochs, latest, pending, z);
        } else {
            pending = sets::rest(pending);
        }
    }
}
