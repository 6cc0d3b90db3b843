// The restart that a failure asks for: the greatest line that loses no message, who goes back, and of each process its
// epoch at the cut and its phase at the restart. specs/Restart says what `restart` answers for every table area and
// failure, and what that means (demand 2). It has no `requires`; `restart_from` is the step of it that
// `recovery::recover` takes too. Assumes nothing.
#![tactic(auto)]

ghost use Rattle.std.specs.Prelude.{◌≡◌, ◌≤◌, IfOk};
ghost use Rattle.trace.specs.Trace.{Trace};
ghost use Rattle.table.specs.Held.{held};
ghost use Rattle.theory.specs.Events.{size};
ghost use Rattle.theory.specs.Epochs.{rule_of};
ghost use Rattle.columns.specs.Inner.Given.{Marked};
ghost use Rattle.restart.specs.Restart.{restart_of, restart_answer, restart_found, restart_answered, Restarts};

use columns::FULL_WORDS;
use recovery_line::Line;
use refusal::Refused;
use trace::PROCESSES;
use words::AREA_WORDS;

// What a failure asks for: the engine's line, the set of the processes that go back and its size, and of each process
// its epoch at the cut and its phase at the restart, or at the cut where it stays. (Clone and Copy alone: nothing
// compares or prints its 800 bytes.)
#[derive(Clone, Copy)]
pub struct Restarted {
    pub line: Line,
    pub going: u64,
    pub back: u32,
    pub epochs: [u32; PROCESSES],
    pub phases: [u32; PROCESSES],
}

// The answer for a failure that is not refused, from the full table.
pub fn restart_from(full: &[u32], cut: usize, set: u64) -> Restarted
    requires { (t : Trace) × Marked t (rule_of t) full.now × (cut ≤ size t) }
    ensures answer { (t : Trace) → Marked t (rule_of t) full.now → cut ≤ size t → restart_found result ≡ restart_of t cut set }
    ensures means { (t : Trace) → Marked t (rule_of t) full.now → cut ≤ size t → Restarts t cut set (restart_found result) }
{
    let mut epochs = [0; PROCESSES];
    let mut phases = [0; PROCESSES];
    let line = greatest::greatest(full, cut, set, &mut epochs, &mut phases);
    Restarted {
        line,
        going: recovery_line::back_set(line),
        back: recovery_line::back(line),
        epochs,
        phases,
    }
}

// The greatest recovery line that loses no message, for a failure of a set of processes right after an event.
pub fn restart(table: &[u32], step: u64, set: u64) -> Result<Restarted, Refused>
    ensures answer { restart_answered result ≡ restart_answer table.now step set }
    ensures means { IfOk result (λ r. Restarts (held table.now) step set (restart_found r)) }
{
    let mut full = [0; FULL_WORDS];
    preparing::open_failure(table, AREA_WORDS, step, set, &mut full)?;
    Ok(restart_from(&full, step as usize, set))
}
