// What is wrong with a failure, 8 or 9, and with a line, 10, from the full table of a trace. The contracts are the
// theory's definitions, for every trace that the table is of. Assumes nothing.
#![tactic(auto)]

ghost use Rattle.std.specs.Prelude.{◌≡◌, leb, ◌^◌, ◌≤◌, ◌<◌, length, get_or, OnOk};
ghost use Rattle.refusal.specs.Inner.Checks.{number_of_check};
ghost use Rattle.trace.specs.Trace.{Trace};
ghost use Rattle.theory.specs.Lists.{all_below};
ghost use Rattle.theory.specs.Events.{size};
ghost use Rattle.theory.specs.Refusals.{failure_fault, numbers_fault};
ghost use Rattle.columns.specs.Inner.Columns.{Tabled};
ghost use Rattle.columns.specs.Inner.Full.{events_w};
ghost use Rattle.recovery_line.specs.Given.{line_in};
ghost use Rattle.faults.specs.Inner.Permitted.{may_hold_w, may_w};

use recovery_line::{Line, STAYS};
use refusal::Refusal;
use trace::PROCESSES;

// Does a set name a process that is none of the first `count`.
fn names_beyond(set: u64, count: usize) -> bool
    requires { count ≤ 64 }
    ensures { result ≡ leb (2 ^ count) set }
{
    count != 64 && set >> count != 0
}

// What is wrong with a failure: the step (8), or the set (9).
pub fn failure_fault(full: &[u32], step: u64, set: u64) -> Result<(), Refusal>
    requires { (t : Trace) × Tabled t full.now }
    ensures number { (t : Trace) → Tabled t full.now → number_of_check result ≡ failure_fault t step set }
    ensures within { OnOk result (step ≤ events_w full.now) }
{
    if step > u64::from(full[1]) {
        return Err(Refusal::Step);
    }
    if set == 0 || names_beyond(set, columns::processes(full)) {
        return Err(Refusal::Set);
    }
    Ok(())
}

// May a line hold n for process z, whose latest finished epoch is `finished`: to restart in epoch n, or to stay.
fn may_hold(finished: u32, n: u32, set: u64, z: usize) -> bool
    requires { z < 64 }
    ensures { result ≡ may_hold_w set finished z n }
{
    (1 <= n && n <= finished) || (n == STAYS && (set >> z) % 2 != 1)
}

// Does a line hold for each process what it may.
fn permitted(finished: &[u32], numbers: &[u32], count: usize, set: u64) -> bool
    requires { (length finished.now ≡ 64) × (length numbers.now ≡ 64) × (count ≤ 64) }
    ensures { result ≡ all_below count (may_w set finished.now numbers.now) }
{
    let mut all = true;
    for z in 0..count {
        all &= may_hold(finished[z], numbers[z], set, z);
    }
    all
}

// What is wrong with a line, where nothing is with the failure (10).
pub fn line_fault(full: &[u32], cut: usize, set: u64, line: Line) -> Result<(), Refusal>
    requires { (t : Trace) × Tabled t full.now × (cut ≤ size t) }
    ensures { (t : Trace) → Tabled t full.now → cut ≤ size t → number_of_check result ≡ numbers_fault t cut set line.count (line_in line) }
{
    let count = columns::processes(full);
    if line.count != count {
        return Err(Refusal::Line);
    }
    let mut finished = [1; PROCESSES];
    positions::finished_at(full, cut, &mut finished);
    if permitted(&finished, &line.epochs, count, set) {
        Ok(())
    } else {
        Err(Refusal::Line)
    }
}
