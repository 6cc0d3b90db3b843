// The gates of a line: of each process which phase must be ready before it may run, and where it restarts. The contract
// is the theory's definition, for every trace that the table is of. Assumes nothing.
#![tactic(auto)]

ghost use Rattle.std.specs.Prelude.{◌≡◌, ◌≤◌, ◌<◌, length};
ghost use Rattle.trace.specs.Trace.{Trace};
ghost use Rattle.theory.specs.Line.{run_at};
ghost use Rattle.columns.specs.Inner.Given.{Gated};
ghost use Rattle.recovery_line.specs.Given.{line_in};
ghost use Rattle.positions.specs.Inner.Positions.{restart_event};
ghost use Rattle.gates.specs.Inner.Gates.{gate_by, Settable};

use columns::RESTART_BASE;
use recovery_line::{Line, STAYS};

// "A zone that goes back may run when its phase at restart, less 1, is ready. A zone that stays may run when its phase
// at the cut is ready." A line's number stays a number, 32 for a process that stays: C reads it so.
fn gate(number: u32, phase: u32) -> u32
    ensures { result ≡ gate_by number phase }
{
    if number == STAYS {
        return phase;
    }
    phase.saturating_sub(1)
}

// The event that a process restarts after: the cut if it stays, its start for epoch 1, else the checkpoint, which is
// the first event that is undone.
fn restart_event(number: u32, cut: usize, first: usize) -> u32
    requires { (cut ≤ 2048) × (first ≤ 2048) }
    ensures { result ≡ restart_event number cut first }
{
    match number {
        STAYS => cut as u32,
        1 => 0,
        _ => first as u32,
    }
}

// Of each process its gate and the event that it restarts after, where the events up to the cut are linked. A link of
// 16 bits becomes an event by `as`: `usize::from` is a call, whose result four answers had to take back (no plainer).
pub fn gates(
    full: &[u32],
    earlier: &[u16],
    latest: &[u16],
    line: Line,
    cut: usize,
    gates: &mut [u32],
)
    requires { (length gates.old ≡ 128) × ((t : Trace) × Settable t full.now earlier.now latest.now line cut) }
    ensures { (t : Trace) → Settable t full.now earlier.now latest.now line cut → Gated (run_at t cut (line_in line)) gates.new }
{
    for z in 0..line.count {
        let number = line.epochs[z];
        let back = positions::go_back(full, earlier, number, latest[z] as usize);
        gates[z] = gate(number, positions::restart_phase(full, number, back.before));
        gates[RESTART_BASE + z] = restart_event(number, cut, back.first);
    }
}
