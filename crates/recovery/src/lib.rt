// Recovery: orders of choices carried out from a recovery line, on a table area, and all that a failure asks for at
// once. specs/Answers and Recover say what each function answers and leaves, for every input; no public function has a
// `requires`. Assumes nothing.
#![tactic(auto)]

ghost use Rattle.std.specs.Prelude.{◌≡◌, ◌≤◌, length};
ghost use Rattle.trace.specs.Trace.{Trace};
ghost use Rattle.theory.specs.Events.{size};
ghost use Rattle.theory.specs.Order.{lowest_order};
ghost use Rattle.theory.specs.Epochs.{rule_of};
ghost use Rattle.columns.specs.Inner.Given.{Marked};
ghost use Rattle.preparing.specs.Faults.{run_of};
ghost use Rattle.recovery.specs.Answers.{replay_answered, Replays, Completed};
ghost use Rattle.recovery.specs.Inner.Recovering.{TraceOnly, Recovering};
ghost use Rattle.recovery.specs.Recover.{recover_found, recover_answered, Recovers};

use columns::{FULL_WORDS, GATE_WORDS, TRACE_WORDS};
use messages::Counted;
use orders::Replayed;
use recovery_line::Line;
use refusal::{Refusal, Refused};
use restart::Restarted;
use words::AREA_WORDS;

// Carries out an order of choices from a line: the answer, and in the run area the delivery record of exactly this
// order.
pub fn replay(
    table: &[u32],
    step: u64,
    set: u64,
    line: Line,
    order: &[u16],
    area: &mut [u32],
) -> Result<Replayed, Refused>
    ensures { Replays table.now area.old step set line order.now (replay_answered result) area.new }
{
    let mut full = [0u32; FULL_WORDS];
    let mut gates = [0u32; GATE_WORDS];
    preparing::prepare(table, area.len(), step, set, line, &mut full, &mut gates)?;
    let run = &mut area[..AREA_WORDS];
    // (By its arms: `map_err` was tried, and the proof didn't close.)
    match orders::replay(&full, &gates, order, run, step as usize) {
        Ok(replayed) => Ok(replayed),
        Err(not_allowed) => Err(Refusal::Choice.at(not_allowed.place)),
    }
}

// The same for the order that always takes the lowest allowed choice.
pub fn lowest(
    table: &[u32],
    step: u64,
    set: u64,
    line: Line,
    area: &mut [u32],
) -> Result<Replayed, Refused>
    ensures replays { Replays table.now area.old step set line (lowest_order (run_of table.now step line)) (replay_answered result) area.new }
    ensures completed { Completed table.now (length area.old) step set line (replay_answered result) }
{
    let mut full = [0u32; FULL_WORDS];
    let mut gates = [0u32; GATE_WORDS];
    preparing::prepare(table, area.len(), step, set, line, &mut full, &mut gates)?;
    let run = &mut area[..AREA_WORDS];
    Ok(search::lowest(&full, &gates, run, step as usize))
}

// What `restart` answers, and with its line `lowest` and `messages`. (Clone and Copy alone, as `Restarted`.)
#[derive(Clone, Copy)]
pub struct Recovered {
    pub restarted: Restarted,
    pub replayed: Replayed,
    pub counted: Counted,
}

// The answers for a failure that is not refused, from the full table. The engine's line loses no message, so that its
// lowest order is complete and has as many steps as there are listed events and kept messages: it is counted and not
// carried out. The list of the messages takes the place of the trace.
fn recover_from(full: &[u32], cut: usize, set: u64, area: &mut [u32]) -> Recovered
    requires { TraceOnly area.old × ((t : Trace) × Marked t (rule_of t) full.now × (cut ≤ size t)) }
    ensures { (t : Trace) → Marked t (rule_of t) full.now → cut ≤ size t → Recovering t cut set (recover_found result) area.new }
{
    let restarted = restart::restart_from(full, cut, set);
    let mut gates = [0u32; GATE_WORDS];
    preparing::gates_of(full, restarted.line, cut, &mut gates);
    let listed = steps::listed_events(full, &gates);
    words::zero(&mut area[..TRACE_WORDS]);
    let counted = messages::list_from(full, &gates, cut, area);
    Recovered {
        restarted,
        replayed: Replayed {
            steps: listed + counted.kept as usize,
            complete: true,
        },
        counted,
    }
}

// All that a failure asks for, from one table: the restart, what the lowest order from its line comes to, and the list
// of the line's messages, which takes the place of the table. A refusal leaves the table as it was.
pub fn recover(table: &mut [u32], step: u64, set: u64) -> Result<Recovered, Refused>
    ensures { Recovers table.old step set (recover_answered result) table.new }
{
    let mut full = [0u32; FULL_WORDS];
    preparing::open_failure(table, AREA_WORDS, step, set, &mut full)?;
    let area = &mut table[..AREA_WORDS];
    Ok(recover_from(&full, step as usize, set, area))
}
