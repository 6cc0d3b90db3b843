// An order of choices carried out in words: its answer, and the delivery record that it leaves. specs/Answer says it by
// the theory's machine; proofs/Ordering has a law for each way out. Assumes nothing.
#![tactic(auto)]

ghost use Rattle.std.specs.Prelude.{◌≡◌, ℕ, ◌≤◌, ◌<◌, length, get_or};
ghost use Rattle.words.specs.Area.{area_words};
ghost use Rattle.machine.specs.Inner.Words.{current_base, low_place};
ghost use Rattle.theory.specs.Line.{Run};
ghost use Rattle.machine.specs.Inner.Related.{Started};
ghost use Rattle.machine.specs.Inner.Shapes.{Begun};
ghost use Rattle.machine.specs.Inner.Tree.{Treed};
ghost use Rattle.theory.specs.Order.{run};
ghost use Rattle.orders.specs.Inner.Left.{Left};
ghost use Rattle.columns.specs.Inner.Given.{Given};
ghost use Rattle.orders.specs.Answer.{answered, answer_of, words_of};

use links::LINK_WORDS;
use machine::{CURRENT_BASE, LOW_PLACE, NO_PHASE, TREE_WORDS};

// What a replay answers: how many choices were carried out, and whether no choice is left.
#[derive(Clone, Copy, Debug, PartialEq, Eq)]
pub struct Replayed {
    pub steps: usize,
    pub complete: bool,
}

// The place of the first choice that is not allowed, from 1.
#[derive(Clone, Copy, Debug, PartialEq, Eq)]
pub struct NotAllowed {
    pub place: usize,
}

// Carries out an order, as far as its choices are allowed: how many were carried out. The step counter is the place in
// the order too.
fn carry_out(
    full: &[u32],
    links: &[u16],
    gates: &[u32],
    order: &[u16],
    tree: &mut [u32],
    area: &mut [u32],
) -> Result<usize, NotAllowed>
    requires { Begun full.now links.now gates.now area.old × Treed full.now area.old tree.old }
    ensures { (R : Run) → Started R full.now links.now gates.now area.old → Left R area.new (length order.now) (run R order.now) result }
{
    let mut steps: usize = 0;
    for c in order {
        if !moves::try_choice(full, links, gates, tree, area, usize::from(*c)) {
            return Err(NotAllowed { place: steps + 1 });
        }
        steps += 1;
    }
    Ok(steps)
}

// The answer to an order that was carried out; the area keeps the record, its working words are 0 again. Those after
// them were 0 all along.
pub fn finish(area: &mut [u32], steps: usize, complete: bool) -> Replayed
    requires { length area.old ≡ area_words }
    ensures answer { result ≡ (record { steps = steps; complete = complete }) }
    ensures kept { (k : ℕ) → (current_base ≤ k → low_place < k) → get_or area.new k 0 ≡ get_or area.old k 0 }
    ensures zeros { (k : ℕ) → current_base ≤ k → k ≤ low_place → get_or area.new k 0 ≡ 0 }
{
    area[CURRENT_BASE..LOW_PLACE + 1].fill(0);
    Replayed { steps, complete }
}

// Replays an order from the first state.
fn replay_in(
    full: &[u32],
    links: &[u16],
    gates: &[u32],
    order: &[u16],
    area: &mut [u32],
) -> Result<Replayed, NotAllowed>
    requires { Begun full.now links.now gates.now area.old }
    ensures answer { (R : Run) → Started R full.now links.now gates.now area.old → answered result ≡ answer_of R (run R order.now) (length order.now) }
    ensures words { (R : Run) → Started R full.now links.now gates.now area.old → area.new ≡ words_of R (run R order.now) }
{
    let mut tree = [NO_PHASE; TREE_WORDS];
    machine::build_tree(full, area, &mut tree);
    match carry_out(full, links, gates, order, &mut tree, area) {
        Ok(steps) => {
            let complete = machine::complete(full, gates, area);
            Ok(finish(area, steps, complete))
        }
        Err(refused) => {
            words::zero(area);
            Err(refused)
        }
    }
}

// Replays an order of the run that the full table and the gates tell, in an area of exactly 16,384 words.
pub fn replay(
    full: &[u32],
    gates: &[u32],
    order: &[u16],
    area: &mut [u32],
    cut: usize,
) -> Result<Replayed, NotAllowed>
    requires { (length area.old ≡ area_words) × ((R : Run) × Given R cut full.now gates.now) }
    ensures answer { (R : Run) → Given R cut full.now gates.now → answered result ≡ answer_of R (run R order.now) (length order.now) }
    ensures words { (R : Run) → Given R cut full.now gates.now → area.new ≡ words_of R (run R order.now) }
{
    let mut links = [0u16; LINK_WORDS];
    words::zero(area);
    links::begin(full, gates, &mut links, area, cut);
    replay_in(full, &links, gates, order, area)
}
