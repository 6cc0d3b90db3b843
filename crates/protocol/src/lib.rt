// The full table of the trace that a table area holds, filled in one pass over the events, each of which is judged by
// the working words of the filling and then noted (crate columns says what the words mean). proofs/Claims says that the
// laws of a recorded run follow. `tabulate` has no `requires`. Assumes nothing.
#![tactic(auto)]

ghost use Rattle.std.specs.Prelude.{◌≡◌, true, false, ◌&&◌, [], ℕ, ◌≤◌, ◌<◌, eqb, length, get_or};
ghost use Rattle.trace.specs.Trace.{Trace};
ghost use Rattle.table.specs.Held.{held_value, held_event, held, holds_trace};
ghost use Rattle.table.specs.Inner.Tested.{word_fits, fit_from, framed};
ghost use Rattle.theory.specs.Epochs.{logged_by, rule_of};
ghost use Rattle.columns.specs.Inner.Columns.{full_words, Columns, Flagged};
ghost use Rattle.columns.specs.Inner.Full.{procs_w, events_w, event_w};
ghost use Rattle.columns.specs.Inner.Filling.{note_full, note_work, fit_in, Noted, Awaits};
ghost use Rattle.protocol.specs.Inner.Fillable.{Fillable};

use columns::{FULL_WORDS, NUMBER_BASE, ONES, TRACE_WORDS, WORK_WORDS};
use trace::{EVENT_BASE, HIGH_BASE, VALUE_BASE};

// Copies the first n words of an area. (By a loop: `copy_from_slice` is `rep movsb` here, which the first count of
// docs/SPEED.md counts byte by byte: 146,523 instructions for a table of 2,048 events in place of 126,379.)
fn copy(area: &[u32], full: &mut [u32], n: usize)
    requires { (n ≤ length area.now) × (n ≤ length full.old) }
    ensures { (k : ℕ) → k < n → get_or full.new k 0 ≡ get_or area.now k 0 }
{
    for (i, word) in full[..n].iter_mut().enumerate() {
        *word = area[i];
    }
}

// Every process begins with epoch 1 and phase 1, and epoch 1 is finished.
fn begin(work: &mut [u16])
    requires { 192 ≤ length work.old }
    ensures first { (k : ℕ) → k < 192 → get_or work.new k 0 ≡ 1 }
    ensures others { (k : ℕ) → 192 ≤ k → get_or work.new k 0 ≡ get_or work.old k 0 }
{
    work[..ONES].fill(1);
}

// Whether the word and the value of event e are those of an event that is fit after those that were noted; then notes
// it.
fn word_noted(full: &mut [u32], work: &mut [u16], procs: usize, e: usize) -> bool
    requires { Awaits procs full.old work.old e }
    ensures answer { result ≡ word_fits (fit_in procs work.old) (event_w full.old e) (held_value full.old e) }
    ensures columns { result ≡ true → full.new ≡ note_full full.old work.old e (held_event full.old e) }
    ensures working { result ≡ true → work.new ≡ note_work full.old work.old e (held_event full.old e) }
{
    let value = words::from_halves(full[VALUE_BASE + e], full[HIGH_BASE + e]);
    let Some(event) = table::read_event(full[EVENT_BASE + e], value) else {
        return false;
    };
    columns::note(full, work, procs, e, event)
}

// Judges and notes each event that the words of a trace in the full table say, until one is not fit; whether all are.
fn events_noted(full: &mut [u32], work: &mut [u16]) -> bool
    requires { (length full.old ≡ full_words) × (events_w full.old ≤ 2048) × Noted (procs_w full.old) [] full.old work.old }
    ensures answer { result ≡ fit_from (procs_w full.old) [] full.old 1 (events_w full.old) }
    ensures columns { (t : Trace) → Fillable t full.old → Columns t full.new × Flagged t (logged_by t (rule_of t)) full.new }
{
    let procs = full[0] as usize;
    let n = full[1] as usize;
    for e in 1..n + 1 {
        if !word_noted(full, work, procs, e) {
            return false;
        }
    }
    true
}

// The same with working words of its own.
fn fill(full: &mut [u32]) -> bool
    requires { (length full.old ≡ full_words) × (2 ≤ procs_w full.old) × (procs_w full.old ≤ 64) × (events_w full.old ≤ 2048) }
    ensures answer { result ≡ fit_from (procs_w full.old) [] full.old 1 (events_w full.old) }
    ensures columns { (t : Trace) → Fillable t full.old → Columns t full.new × Flagged t (logged_by t (rule_of t)) full.new }
{
    full[NUMBER_BASE] = 0;
    let mut work = [0u16; WORK_WORDS];
    begin(&mut work);
    events_noted(full, &mut work)
}

// The full table of the trace that an area holds, in a lent table of exactly FULL_WORDS words; false where the area
// holds no trace, or the lent table has another size: then it is of no use. It is as it was where its size is another,
// or all of the area but its events is no trace's. Which received messages are logged is decided here, by the trace's
// rule.
pub fn tabulate(area: &[u32], full: &mut [u32]) -> bool
    ensures answer { result ≡ (eqb (length full.old) full_words && holds_trace area.now) }
    ensures columns { result ≡ true → Columns (held area.now) full.new }
    ensures flags { result ≡ true → Flagged (held area.now) (logged_by (held area.now) (rule_of (held area.now))) full.new }
    ensures untouched { (eqb (length full.old) full_words && framed area.now) ≡ false → full.new ≡ full.old }
{
    if full.len() != FULL_WORDS {
        return false;
    }
    if !table::frame_fits(area) {
        return false;
    }
    copy(area, full, TRACE_WORDS);
    fill(full)
}

// The full table of the trace whose words stand in it, filled behind them. It needs no check: they are a trace's.
pub fn fill_in_place(full: &mut [u32])
    requires { (t : Trace) × Fillable t full.old }
    ensures { (t : Trace) → Fillable t full.old → Columns t full.new × Flagged t (logged_by t (rule_of t)) full.new }
{
    fill(full);
}
