// How many steps a complete replay takes from a line that loses no message, counted without a replay: by the theory's
// theorem as many as there are listed events and kept messages. The kept ones are counted where messages are listed,
// the listed events here. Assumes nothing.
#![tactic(auto)]

ghost use Rattle.std.specs.Prelude.{◌≡◌, ◌≤◌};
ghost use Rattle.theory.specs.Line.{Run};
ghost use Rattle.columns.specs.Inner.Given.{Tells, Gated};
ghost use Rattle.steps.specs.Inner.Steps.{listed_events};

use columns::RESTART_BASE;
use trace::EVENT_BASE;

// How many events are listed: those after the restart of their process.
pub fn listed_events(full: &[u32], gates: &[u32]) -> usize
    requires { (R : Run) × Tells R full.now × Gated R gates.now }
    ensures count { (R : Run) → Tells R full.now → Gated R gates.now → result ≡ listed_events R }
    ensures few { result ≤ 2048 }
{
    let mut count = 0;
    for e in 1..full[1] as usize + 1 {
        let z = trace::process(full[EVENT_BASE + e]);
        if (gates[RESTART_BASE + z] as usize) < e {
            count += 1;
        }
    }
    count
}
