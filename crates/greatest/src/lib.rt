// The greatest line without a lost message after a failure, with epochs at the cut and phases at the restarts, from the
// full table of a trace. The contract is the theory's definition, for every trace that the table is of and every rule
// that its messages are marked by. Assumes nothing.
#![tactic(auto)]

ghost use Rattle.std.specs.Prelude.{◌≡◌, cond, ℕ, ◌≤◌, ◌<◌, length, get_or};
ghost use Rattle.words.specs.Area.{words_from};
ghost use Rattle.trace.specs.Trace.{Trace};
ghost use Rattle.theory.specs.Epochs.{Rule, rule_of};
ghost use Rattle.theory.specs.Line.{in_set, current, Greatest, usable_at};
ghost use Rattle.recovery_line.specs.Given.{each, line_in, line_to, restart_phase_in};
ghost use Rattle.theory.specs.Events.{size};
ghost use Rattle.columns.specs.Inner.Given.{Marked};
ghost use Rattle.greatest.specs.Inner.Line.{line_by, Sought};

use positions::LINKS;
use recovery_line::{Line, STAYS};
use trace::PROCESSES;

// A process's number in the first line: a failed one may not stay.
fn first_number(set: u64, z: u32, finished: u32) -> u32
    requires { z < 64 }
    ensures { result ≡ cond (in_set set z) finished 32 }
{
    if (set >> z) % 2 == 1 { finished } else { STAYS }
}

// The first line, from the latest finished epochs at the cut.
fn first_line(finished: &[u32], count: usize, set: u64, numbers: &mut [u32; PROCESSES])
    requires { (length finished.now ≡ 64) × (length numbers.old ≡ 64) × (count ≤ 64) }
    ensures below { (z : ℕ) → z < count → get_or numbers.new z 0 ≡ cond (in_set set z) (get_or finished.now z 0) 32 }
    ensures others { (z : ℕ) → count ≤ z → get_or numbers.new z 0 ≡ get_or numbers.old z 0 }
    ensures long { length numbers.new ≡ 64 }
{
    for z in 0..count {
        numbers[z] = first_number(set, z as u32, finished[z]);
    }
}

// The greatest permitted line without a lost message, for a failure of a set of processes right after event `cut`.
// Leaves the epochs of the processes at the cut, and their phases at the line's restarts, or at the cut for those that
// stay. What is lowered, process by process, is the line itself: its array is lent.
pub fn greatest(full: &[u32], cut: usize, set: u64, epochs: &mut [u32], phases: &mut [u32]) -> Line
    requires { (length epochs.old ≡ 64) × (length phases.old ≡ 64) × ((t : Trace) × (rule : Rule) × Sought t rule full.now cut) }
    ensures line { (t : Trace) (rule : Rule) → Marked t rule full.now → cut ≤ size t → result ≡ line_to t (line_by t rule cut set) }
    ensures means { (t : Trace) (rule : Rule) → Marked t rule full.now → cut ≤ size t → Greatest t rule cut (usable_at t cut) (in_set set) (line_in result) }
    ensures epochs { (t : Trace) (rule : Rule) → Marked t rule full.now → cut ≤ size t → epochs.new ≡ words_from (each t (current t (rule_of t) cut)) 0 64 }
    ensures phases { (t : Trace) (rule : Rule) → Marked t rule full.now → cut ≤ size t → phases.new ≡ words_from (each t (restart_phase_in t cut (line_in result))) 0 64 }
{
    let count = columns::processes(full);
    let mut earlier = [0; LINKS];
    let mut latest = [0; PROCESSES];
    positions::link(full, cut, &mut earlier, &mut latest);
    positions::epochs_at(full, &latest, count, epochs);
    let mut finished = [1; PROCESSES];
    positions::finished_at(full, cut, &mut finished);
    let mut line = Line {
        epochs: [0; PROCESSES],
        count,
    };
    first_line(&finished, count, set, &mut line.epochs);
    lowering::lower(full, &finished, &earlier, &mut line.epochs, &mut latest);
    positions::restart_phases(full, &latest, &line.epochs, count, phases);
    line
}
