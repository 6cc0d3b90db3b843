// The orphans, the kept and the lost messages of a line, counted, and listed in the run area. specs/Messages says what
// `messages` answers and leaves for every input, specs/Meaning what that means (demand 2). It has no `requires`;
// `list_from` is the step of it that `recovery::recover` takes too. Assumes nothing.
#![tactic(auto)]

ghost use Rattle.std.specs.Prelude.{◌≡◌, ◌+◌, ◌≤◌, replicate, IfOk};
ghost use Rattle.words.specs.Area.{area_words, words_from};
ghost use Rattle.theory.specs.Line.{Run};
ghost use Rattle.listing.specs.Listing.{list_word};
ghost use Rattle.columns.specs.Inner.Given.{Given};
ghost use Rattle.preparing.specs.Faults.{run_of};
ghost use Rattle.messages.specs.Messages.{counts_of, messages_answer, messages_area, messages_found, messages_answered};
ghost use Rattle.messages.specs.Meaning.{Lists};

use columns::{FULL_WORDS, GATE_WORDS};
use recovery_line::Line;
use refusal::Refused;
use words::AREA_WORDS;

// How many messages of each class a line leaves.
#[derive(Clone, Copy, Debug, PartialEq, Eq)]
pub struct Counted {
    pub orphans: u32,
    pub kept: u32,
    pub lost: u32,
}

// The orphans, kept and lost messages listed in a run area of zeros, from the full table and the gates of a line: how
// many there are.
pub fn list_from(full: &[u32], gates: &[u32], cut: usize, area: &mut [u32]) -> Counted
    requires { (area.old ≡ replicate area_words 0) × ((R : Run) × Given R cut full.now gates.now) }
    ensures answer { (R : Run) → Given R cut full.now gates.now → messages_found result ≡ counts_of R }
    ensures words { (R : Run) → Given R cut full.now gates.now → area.new ≡ words_from (list_word R) 0 area_words }
    ensures few { result.orphans + (result.kept + result.lost) ≤ 2048 }
{
    listing::list(full, gates, cut, area);
    Counted {
        orphans: area[0],
        kept: area[1],
        lost: area[2],
    }
}

// The orphans, kept and lost messages of a line: how many there are, and their list in the run area.
pub fn messages(
    table: &[u32],
    step: u64,
    set: u64,
    line: Line,
    area: &mut [u32],
) -> Result<Counted, Refused>
    ensures answer { messages_answered result ≡ messages_answer table.now area.old step set line }
    ensures words { area.new ≡ messages_area table.now area.old step set line }
    ensures few { IfOk result (λ c. c.orphans + (c.kept + c.lost) ≤ 2048) }
    ensures means { IfOk result (λ c. Lists (run_of table.now step line) c.orphans c.kept c.lost area.new) }
{
    let mut full = [0; FULL_WORDS];
    let mut gates = [0; GATE_WORDS];
    preparing::prepare(table, area.len(), step, set, line, &mut full, &mut gates)?;
    let list = &mut area[..AREA_WORDS];
    words::zero(list);
    Ok(list_from(&full, &gates, step as usize, list))
}
