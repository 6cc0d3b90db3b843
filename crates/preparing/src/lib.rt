// What a call is given, checked in the order of the numbers: the areas (12, 13), the failure (8, 9), and with a line
// 10. Where nothing is wrong, the full table of the trace is filled, and with a line its gates. specs/Faults says the
// numbers for every input. Assumes nothing.
#![tactic(auto)]

ghost use Rattle.std.specs.Prelude.{◌≡◌, length, OnOk};
ghost use Rattle.refusal.specs.Inner.Checks.{number_of_check};
ghost use Rattle.trace.specs.Trace.{Trace};
ghost use Rattle.theory.specs.Line.{run_at};
ghost use Rattle.columns.specs.Inner.Columns.{full_words};
ghost use Rattle.columns.specs.Inner.Given.{Given};
ghost use Rattle.recovery_line.specs.Given.{line_in};
ghost use Rattle.preparing.specs.Inner.Prepared.{failure_fault_in, TableOpened, Tabulated, Takeable, Prepared};
ghost use Rattle.preparing.specs.Faults.{areas_or, line_fault_of};

use positions::LINKS;
use recovery_line::Line;
use refusal::Refusal;
use trace::PROCESSES;
use words::AREA_WORDS;

// Checks the areas that a call is given (12, 13). Where nothing is wrong, fills the full table of the trace.
fn open_table(table: &[u32], room: usize, full: &mut [u32]) -> Result<(), Refusal>
    requires { length full.old ≡ full_words }
    ensures fault { number_of_check result ≡ areas_or table.now room 0 }
    ensures given { OnOk result (TableOpened table.now room full.new) }
{
    if table.len() < AREA_WORDS || room < AREA_WORDS {
        return Err(Refusal::ShortArea);
    }
    if protocol::tabulate(table, full) {
        Ok(())
    } else {
        Err(Refusal::NoTrace)
    }
}

// Checks the areas and a failure (12, 13, 8, 9). Where nothing is wrong, fills the full table of the trace.
pub fn open_failure(
    table: &[u32],
    room: usize,
    step: u64,
    set: u64,
    full: &mut [u32],
) -> Result<(), Refusal>
    requires { length full.old ≡ full_words }
    ensures fault { number_of_check result ≡ failure_fault_in table.now room step set }
    ensures given { OnOk result (Tabulated table.now room step set full.new) }
{
    open_table(table, room, full)?;
    faults::failure_fault(full, step, set)
}

// The gates of a line that may be taken, from the full table.
pub fn gates_of(full: &[u32], line: Line, cut: usize, gates: &mut [u32])
    requires { (length gates.old ≡ 128) × ((t : Trace) × Takeable t full.now line cut) }
    ensures { (t : Trace) → Takeable t full.now line cut → Given (run_at t cut (line_in line)) cut full.now gates.new }
{
    let mut earlier = [0; LINKS];
    let mut latest = [0; PROCESSES];
    positions::link(full, cut, &mut earlier, &mut latest);
    gates::gates(full, &earlier, &latest, line, cut, gates);
}

// Checks the areas, a failure and a line (12, 13, 8, 9, 10). Where nothing is wrong, fills the full table of the trace
// and the gates of the line.
pub fn prepare(
    table: &[u32],
    room: usize,
    step: u64,
    set: u64,
    line: Line,
    full: &mut [u32],
    gates: &mut [u32],
) -> Result<(), Refusal>
    requires { (length full.old ≡ full_words) × (length gates.old ≡ 128) }
    ensures fault { number_of_check result ≡ line_fault_of table.now room step set line }
    ensures given { OnOk result (Prepared table.now room step line full.new gates.new) }
{
    open_failure(table, room, step, set, full)?;
    faults::line_fault(full, step as usize, set, line)?;
    gates_of(full, line, step as usize, gates);
    Ok(())
}
