// The order that always takes the lowest allowed choice. The contract is that of replaying the theory's lowest order.
// Assumes nothing.
//
// The lowest choice is looked for where something can have changed: in a set of processes outside of which none may
// run, and for each sender in a set of receivers outside of which none has a kept message that may be handed over. Sets
// may have members too many, never too few. A step gives back to the sets whom it may let go on. Where the least phase
// of an orphan not sent again is new, that is: the processes whose gates it opens, of a set of those that are still
// shut, and the channels of the kept messages whose phases it passes, by the lists of crate links.
//
// The cost is linear in the events: a try without success takes a member from its set, and members join one at a step,
// two where a message is handed over, each process once by its gate, each kept message once by its list. Shut gates
// are looked at only where the least phase is above the least of them, so that after the first look at least one opens:
// at most 64 looks and 2,080. Each phase is passed once, and there are at most two more of them than events. No term is
// events times processes.
#![tactic(auto)]

ghost use Rattle.std.specs.Prelude.{◌≡◌, true, ℕ, ◌+◌, ◌*◌, ◌/◌, ◌%◌, ◌≤◌, ◌<◌, length, get_or, Ok, IfSome, IfNone};
ghost use Rattle.words.specs.Area.{area_words};
ghost use Rattle.machine.specs.Inner.Words.{low_w, put_in_w, kept_phase, Small};
ghost use Rattle.machine.specs.Inner.Tree.{Treed};
ghost use Rattle.theory.specs.Events.{size};
ghost use Rattle.theory.specs.Line.{Run, in_set};
ghost use Rattle.machine.specs.Inner.Related.{Started};
ghost use Rattle.theory.specs.Order.{run, lowest_order};
ghost use Rattle.machine.specs.Inner.Shapes.{FullLong, Pointed, Readable, Tryable};
ghost use Rattle.columns.specs.Inner.Given.{Given};
ghost use Rattle.sets.specs.Inner.Sets.{with_in};
ghost use Rattle.links.specs.Inner.Listed.{ListsRising, ListsWalkable};
ghost use Rattle.search.specs.Inner.Lowest.{Idle, Unready, Waiting, NoneTo, ToHand, Receiver, Ran, LowestDone};
ghost use Rattle.search.specs.Inner.Looking.{Goes, SearchEnds, GoesOn};
ghost use Rattle.search.specs.Inner.Opened.{Searchable, Shut, GatesOpened, ListJoined, PhasesJoined};
ghost use Rattle.orders.specs.Answer.{answer_of, words_of};
ghost use Rattle.orders.specs.Answer.{answered};

use links::{HEAD_WORDS, LINK_WORDS};
use machine::{LOW_PLACE, NO_PHASE, TREE_WORDS};
use orders::Replayed;
use sets::EVERYONE;
use trace::EVENT_BASE;

const PROCESSES: usize = 64;

// The first member of the set that may run does its next event: the set from it on, with whom that may let run; none
// where none may.
fn run_lowest(
    full: &[u32],
    links: &[u16],
    gates: &[u32],
    tree: &mut [u32],
    area: &mut [u32],
    may: u64,
) -> Option<u64>
    requires { Tryable full.now links.now gates.now tree.old area.old × Idle full.now gates.now area.old may }
    ensures none { IfNone result (Idle full.now gates.now area.old 0 × (area.new ≡ area.old)) }
    ensures ran { IfSome result (λ m. Ran full.now gates.now area.old links.now area.new may m) }
    ensures leaves { Treed full.now area.new tree.new }
{
    let mut left = may;
    while left != 0 {
        if let Some(next) = moves::try_process(full, links, gates, tree, area, sets::first(left)) {
            return Some(left | next);
        }
        left = sets::rest(left);
    }
    None
}

// The first receiver to whom the oldest kept message of sender p may be handed over. Those before it leave the sender's
// set.
fn next_receiver(
    full: &[u32],
    gates: &[u32],
    area: &[u32],
    p: usize,
    ready: &mut [u64],
) -> Option<usize>
    requires { (p < 64) × Readable full.now gates.now area.now × (length ready.old ≡ 64) × Unready full.now gates.now area.now (low_w area.now) ready.old }
    ensures none { IfNone result ((q : ℕ) → q < 64 → low_w area.now ≤ kept_phase full.now gates.now area.now p (64 * p + q)) }
    ensures found { IfSome result (λ q. Receiver full.now gates.now area.now ready.new p q) }
    ensures unready { Unready full.now gates.now area.now (low_w area.now) ready.new }
{
    let low = area[LOW_PLACE];
    let mut left = ready[p];
    while left != 0 {
        let q = sets::first(left);
        if machine::kept_phase(full, gates, area, p, 64 * p + q) < low {
            ready[p] = left;
            return Some(q);
        }
        left = sets::rest(left);
    }
    ready[p] = 0;
    None
}

// A channel whose oldest kept message may be handed over, and the set of senders from that of the channel on.
#[derive(Clone, Copy, Debug, PartialEq, Eq)]
struct Hand {
    channel: usize,
    senders: u64,
}

// The first channel of a sender of the set whose oldest kept message may be handed over.
fn next_hand(
    full: &[u32],
    gates: &[u32],
    area: &[u32],
    senders: u64,
    ready: &mut [u64],
) -> Option<Hand>
    requires { Readable full.now gates.now area.now × (length ready.old ≡ 64) × Unready full.now gates.now area.now (low_w area.now) ready.old × Waiting full.now gates.now area.now (low_w area.now) senders }
    ensures none { IfNone result (NoneTo full.now gates.now area.now 4096) }
    ensures before { IfSome result (λ h. NoneTo full.now gates.now area.now h.channel) }
    ensures found { IfSome result (λ h. ToHand full.now gates.now area.now ready.new h.senders h.channel) }
    ensures waiting { IfSome result (λ h. Waiting full.now gates.now area.now (low_w area.now) h.senders) }
    ensures unready { Unready full.now gates.now area.now (low_w area.now) ready.new }
{
    let mut left = senders;
    while left != 0 {
        let p = sets::first(left);
        if let Some(q) = next_receiver(full, gates, area, p, ready) {
            return Some(Hand {
                channel: 64 * p + q,
                senders: left,
            });
        }
        left = sets::rest(left);
    }
    None
}

// The oldest kept message of channel c is handed over: the set of those whom that may let run.
fn hand_over(links: &[u16], area: &mut [u32], c: usize) -> u64
    requires { (c < 4096) × (8197 ≤ length links.now) × Pointed area.old }
    ensures words { area.new ≡ put_in_w links.now area.old c }
    ensures ends { result ≡ with_in (with_in 0 (c / 64)) (c % 64) }
{
    moves::put_in(links, area, c);
    sets::with(sets::with(0, c / 64), c % 64)
}

// What the search knows: a set of processes outside of which none may run, one of senders outside of which none has a
// kept message that is ready, one of processes outside of which no gate is shut, and a phase that the gates of its
// members are not below.
#[derive(Clone, Copy, Debug, PartialEq, Eq)]
struct Open {
    may: u64,
    senders: u64,
    shut: u64,
    gate: u32,
}

// Processes whose gates are below the least phase may run.
fn open_gates(gates: &[u32], low: u32, o: Open) -> Open
    requires { (128 ≤ length gates.now) × ((z : ℕ) → z < 64 → in_set o.shut z ≡ true → o.gate ≤ get_or gates.now z 0) }
    ensures gates { GatesOpened gates.now low o.may o.shut 0 result.may result.shut result.gate }
    ensures senders { result.senders ≡ o.senders }
{
    if low <= o.gate {
        return o;
    }
    let mut may = o.may;
    let mut shut: u64 = 0;
    let mut gate: u32 = NO_PHASE;
    let mut left = o.shut;
    while left != 0 {
        let z = sets::first(left);
        let phase = gates[z];
        if phase < low {
            may = sets::with(may, z);
        } else {
            shut = sets::with(shut, z);
            gate = phase.min(gate);
        }
        left = sets::rest(left);
    }
    Open {
        may,
        senders: o.senders,
        shut,
        gate,
    }
}

// The kept messages of a list: their receivers join the sets of their senders, and these the set that is the answer.
fn join_list(full: &[u32], links: &[u16], ready: &mut [u64], first: usize, set: u64) -> u64
    requires { (first < 2049) × FullLong full.now × (8197 ≤ length links.now) × Small links.now × ListsRising links.now × (length ready.old ≡ 64) }
    ensures { ListJoined full.now links.now first ready.old set ready.new result }
{
    let mut senders = set;
    let mut m = first;
    while m != 0 {
        let w = full[EVENT_BASE + m];
        let p = trace::process(w);
        ready[p] = sets::with(ready[p], trace::peer(w));
        senders = sets::with(senders, p);
        m = usize::from(links[4 * m + 3]);
    }
    senders
}

// The kept messages of the phases from one on and before another.
fn join_phases(
    full: &[u32],
    links: &[u16],
    heads: &[u16],
    ready: &mut [u64],
    from: usize,
    to: usize,
    set: u64,
) -> u64
    requires { (to ≤ 2056) × ListsWalkable full.now links.now heads.now × (length ready.old ≡ 64) }
    ensures { PhasesJoined full.now links.now heads.now from to ready.old set ready.new result }
{
    let mut senders = set;
    for f in from..to {
        senders = join_list(full, links, ready, usize::from(heads[f]), senders);
    }
    senders
}

// What a new least phase opens: gates, and the lists of the phases that it passes. A phase is at most one more than the
// events, whatever the least one is.
fn opened(
    full: &[u32],
    links: &[u16],
    gates: &[u32],
    heads: &[u16],
    ready: &mut [u64],
    was: u32,
    is: u32,
    o: Open,
) -> Open
    requires { ListsWalkable full.now links.now heads.now × (128 ≤ length gates.now) × (length ready.old ≡ 64) × Shut gates.now was o.shut o.gate }
    ensures gates { GatesOpened gates.now is o.may o.shut 0 result.may result.shut result.gate }
    ensures lists { PhasesJoined full.now links.now heads.now was is ready.old o.senders ready.new result.senders }
{
    if is == was {
        return o;
    }
    let by = open_gates(gates, is, o);
    let top = is.min(full[1] + 2) as usize;
    let senders = join_phases(full, links, heads, ready, was as usize, top, by.senders);
    Open { senders, ..by }
}

// Carries out the lowest choice: what the search knows after it; none where no choice is allowed.
fn carry_next(
    full: &[u32],
    links: &[u16],
    gates: &[u32],
    heads: &[u16],
    tree: &mut [u32],
    area: &mut [u32],
    ready: &mut [u64],
    o: Open,
) -> Option<Open>
    requires { Goes full.now links.now heads.now gates.now area.old tree.old ready.old o.may o.senders o.shut o.gate }
    ensures none { IfNone result (SearchEnds full.now links.now heads.now gates.now area.old tree.old ready.old o.may o.senders o.shut o.gate area.new) }
    ensures next { IfSome result (λ p. GoesOn full.now links.now heads.now gates.now area.old tree.old ready.old o.may o.senders o.shut o.gate area.new tree.new ready.new p.may p.senders p.shut p.gate) }
{
    let low = area[LOW_PLACE];
    if let Some(may) = run_lowest(full, links, gates, tree, area, o.may) {
        let now = area[LOW_PLACE];
        return Some(opened(
            full,
            links,
            gates,
            heads,
            ready,
            low,
            now,
            Open { may, ..o },
        ));
    }
    let hand = next_hand(full, gates, area, o.senders, ready)?;
    let may = hand_over(links, area, hand.channel);
    Some(Open {
        may,
        senders: hand.senders,
        ..o
    })
}

// Carries out the lowest choices, one after another, at most so many: how many there were.
fn carry_lowest(
    full: &[u32],
    links: &[u16],
    gates: &[u32],
    heads: &[u16],
    tree: &mut [u32],
    area: &mut [u32],
    most: usize,
) -> usize
    requires { Searchable full.now links.now heads.now gates.now area.old × Treed full.now area.old tree.old }
    ensures { (R : Run) → Started R full.now links.now gates.now area.old → LowestDone R area.new most result }
{
    let mut ready = [0u64; PROCESSES];
    let none = Open {
        may: 0,
        senders: 0,
        shut: EVERYONE,
        gate: 0,
    };
    let low = area[LOW_PLACE];
    let mut o = opened(full, links, gates, heads, &mut ready, 0, low, none);
    for i in 0..most {
        let next = carry_next(full, links, gates, heads, tree, area, &mut ready, o);
        let Some(next) = next else {
            return i;
        };
        o = next;
    }
    most
}

// Replays the order of the lowest choices from the first state. It is complete after twice as many steps as there are
// events, at most.
fn lowest_in(
    full: &[u32],
    links: &[u16],
    gates: &[u32],
    heads: &[u16],
    area: &mut [u32],
    most: usize,
) -> Replayed
    requires { Searchable full.now links.now heads.now gates.now area.old }
    ensures answer { (R : Run) → Started R full.now links.now gates.now area.old → most ≡ size R.trace + size R.trace → answered (Ok result) ≡ answer_of R (run R (lowest_order R)) (length (lowest_order R)) }
    ensures words { (R : Run) → Started R full.now links.now gates.now area.old → most ≡ size R.trace + size R.trace → area.new ≡ words_of R (run R (lowest_order R)) }
{
    let mut tree = [NO_PHASE; TREE_WORDS];
    machine::build_tree(full, area, &mut tree);
    let steps = carry_lowest(full, links, gates, heads, &mut tree, area, most);
    orders::finish(area, steps, true)
}

// Replays the order that always takes the lowest allowed choice, of the run that the full table and the gates tell, in
// an area of exactly 16,384 words. No order is longer than twice the number of events.
pub fn lowest(full: &[u32], gates: &[u32], area: &mut [u32], cut: usize) -> Replayed
    requires { (length area.old ≡ area_words) × ((R : Run) × Given R cut full.now gates.now) }
    ensures answer { (R : Run) → Given R cut full.now gates.now → answered (Ok result) ≡ answer_of R (run R (lowest_order R)) (length (lowest_order R)) }
    ensures words { (R : Run) → Given R cut full.now gates.now → area.new ≡ words_of R (run R (lowest_order R)) }
{
    let mut links = [0u16; LINK_WORDS];
    let mut heads = [0u16; HEAD_WORDS];
    words::zero(area);
    links::begin_listed(full, gates, &mut links, &mut heads, area, cut);
    let n = full[1] as usize;
    lowest_in(full, &links, gates, &heads, area, n + n)
}
