// One choice tried in words: where it may be carried out it is. What a process needs of the table, the links, the gates
// and the run area is read once for test and step; a hand-over reads the pointer of its channel for each. Crate machine
// has the tests by themselves, and its specs/Inner/Words says what each test and each step does. Assumes nothing.
#![tactic(auto)]

ghost use Rattle.std.specs.Prelude.{◌≡◌, true, false, List, ℕ, ◌≤◌, ◌<◌, length, IfSome, IfNone};
ghost use Rattle.columns.specs.Inner.Full.{procs_w, kind_w, peer_w};
ghost use Rattle.sets.specs.Inner.Sets.{with_in};
ghost use Rattle.machine.specs.Inner.Words.{take_w, put_w, event_ok, process_ok, allowed_w, drop_w, put_in_w, take_out_w, event_step_w, process_w, apply_w, wakes_at, wakes};
ghost use Rattle.machine.specs.Inner.Shapes.{Pointed, Movable, Tryable};
ghost use Rattle.machine.specs.Inner.Tree.{Treed};
ghost use Rattle.moves.specs.Inner.Tried.{Tried};

use columns::RESTART_BASE;
use machine::{CHOICES, CURRENT_BASE, HANDS, LOW_PLACE, ORPHAN_BASE, PUT_BASE, TAKE_BASE};
use trace::EVENT_BASE;
use trace::kinds::Kind;

// The message that event m sends goes into channel c, whose next one to put in it is.
fn put_next(links: &[u16], area: &mut [u32], c: usize, m: usize)
    requires { (c < 4096) × (m < 2049) × (m ≡ put_w area.old c) × (8197 ≤ length links.now) × Pointed area.old }
    ensures { area.new ≡ put_in_w links.now area.old c }
{
    area[PUT_BASE + c] = u32::from(links[4 * m + 1]);
}

// A message goes into channel c, handed over.
pub fn put_in(links: &[u16], area: &mut [u32], c: usize)
    requires { (c < 4096) × (8197 ≤ length links.now) × Pointed area.old }
    ensures { area.new ≡ put_in_w links.now area.old c }
{
    put_next(links, area, c, machine::pointer(area, PUT_BASE + c));
}

// The receive e takes the oldest message of channel c, which event m sends and which goes on record.
fn take_out(full: &[u32], links: &[u16], area: &mut [u32], c: usize, e: usize, m: usize)
    requires { (c < 4096) × (e < 2049) × (m < 2049) × (m ≡ take_w area.old c) × Movable full.now links.now area.old }
    ensures { area.new ≡ take_out_w full.now links.now area.old c e }
{
    area[TAKE_BASE + c] = u32::from(links[4 * m + 1]);
    machine::note_taken(full, area, e, m);
}

// The send e of process z is an orphan's: its message is dropped, and counts as sent again.
fn drop_orphan(full: &[u32], links: &[u16], tree: &mut [u32], area: &mut [u32], z: usize, e: usize)
    requires { (z < procs_w full.now) × (e < 2049) × Movable full.now links.now area.old × Treed full.now area.old tree.old }
    ensures words { area.new ≡ drop_w full.now links.now area.old z e }
    ensures leaves { Treed full.now area.new tree.new }
{
    let o = links[4 * e + 2];
    area[ORPHAN_BASE + z] = u32::from(o);
    machine::set_orphan(full, tree, z, usize::from(o));
    area[LOW_PLACE] = tree[1];
}

// Process z sends the message of event e, if no kept message of the channel is left to go before it.
fn try_send(
    full: &[u32],
    links: &[u16],
    gates: &[u32],
    tree: &mut [u32],
    area: &mut [u32],
    z: usize,
    e: usize,
    peer: usize,
) -> Option<u64>
    requires { (z < procs_w full.now) × (e < 2049) × (kind_w full.now e ≡ 1) × (peer < 64) × (peer ≡ peer_w full.now e) × Tryable full.now links.now gates.now tree.old area.old }
    ensures tried { Tried (event_ok full.now gates.now area.old z e) (event_step_w full.now links.now area.old z e) (wakes_at full.now area.old z e) area.old tree.old area.new tree.new result }
    ensures leaves { Treed full.now area.new tree.new }
{
    let c = 64 * z + peer;
    let m = machine::pointer(area, PUT_BASE + c);
    if machine::send_ok(gates[RESTART_BASE + z], m) {
        if machine::pointer(area, ORPHAN_BASE + z) == e {
            drop_orphan(full, links, tree, area, z, e);
            return Some(sets::with(0, z));
        }
        put_next(links, area, c, m);
        return Some(sets::with(0, peer));
    }
    None
}

// Process z takes a message from peer by its receive e, if one is in the channel.
fn try_receive(
    full: &[u32],
    links: &[u16],
    area: &mut [u32],
    z: usize,
    e: usize,
    peer: usize,
) -> Option<u64>
    requires { (z < 64) × (e < 2049) × (kind_w full.now e ≡ 2) × (peer < 64) × (peer ≡ peer_w full.now e) × Movable full.now links.now area.old }
    ensures tried { (gates tree : List ℕ) → Tried (event_ok full.now gates area.old z e) (event_step_w full.now links.now area.old z e) (wakes_at full.now area.old z e) area.old tree area.new tree result }
    ensures leaves { (tree : List ℕ) → Treed full.now area.old tree → Treed full.now area.new tree }
{
    let c = 64 * peer + z;
    let m = machine::pointer(area, TAKE_BASE + c);
    if m == machine::pointer(area, PUT_BASE + c) {
        return None;
    }
    take_out(full, links, area, c, e, m);
    Some(sets::with(0, z))
}

// Process z does event e, if that may be done; it does not move on.
fn try_event(
    full: &[u32],
    links: &[u16],
    gates: &[u32],
    tree: &mut [u32],
    area: &mut [u32],
    z: usize,
    e: usize,
) -> Option<u64>
    requires { (z < procs_w full.now) × (e < 2049) × Tryable full.now links.now gates.now tree.old area.old }
    ensures tried { Tried (event_ok full.now gates.now area.old z e) (event_step_w full.now links.now area.old z e) (wakes_at full.now area.old z e) area.old tree.old area.new tree.new result }
    ensures leaves { Treed full.now area.new tree.new }
{
    let w = full[EVENT_BASE + e];
    let peer = trace::peer(w);
    match Kind::of(w) {
        Kind::Send => try_send(full, links, gates, tree, area, z, e, peer),
        Kind::Receive => try_receive(full, links, area, z, e, peer),
        _ => Some(sets::with(0, z)),
    }
}

// Process z does its next event and moves on, if it may: none where it may not, else the set of the one process whom that
// may let run, besides z itself and whom a new least phase lets run; of z where there is no such process.
pub fn try_process(
    full: &[u32],
    links: &[u16],
    gates: &[u32],
    tree: &mut [u32],
    area: &mut [u32],
    z: usize,
) -> Option<u64>
    requires { (z < 64) × Tryable full.now links.now gates.now tree.old area.old }
    ensures refused { IfNone result ((process_ok full.now gates.now area.old z ≡ false) × (area.new ≡ area.old) × (tree.new ≡ tree.old)) }
    ensures done { IfSome result (λ whom. (process_ok full.now gates.now area.old z ≡ true) × (area.new ≡ process_w full.now links.now area.old z)) }
    ensures woken { IfSome result (λ whom. whom ≡ with_in 0 (wakes full.now area.old z)) }
    ensures leaves { Treed full.now area.new tree.new }
{
    let e = machine::pointer(area, CURRENT_BASE + z);
    if e == 0 {
        return None;
    }
    if gates[z] >= area[LOW_PLACE] {
        return None;
    }
    let woken = try_event(full, links, gates, tree, area, z, e)?;
    area[CURRENT_BASE + z] = u32::from(links[4 * e]);
    Some(woken)
}

// Carries out a choice, if it is allowed; says whether it is.
pub fn try_choice(
    full: &[u32],
    links: &[u16],
    gates: &[u32],
    tree: &mut [u32],
    area: &mut [u32],
    c: usize,
) -> bool
    requires { Tryable full.now links.now gates.now tree.old area.old }
    ensures allowed { result ≡ allowed_w full.now gates.now area.old c }
    ensures refused { result ≡ false → (area.new ≡ area.old) × (tree.new ≡ tree.old) }
    ensures done { result ≡ true → area.new ≡ apply_w full.now links.now area.old c }
    ensures leaves { Treed full.now area.new tree.new }
{
    if c < HANDS {
        return try_process(full, links, gates, tree, area, c).is_some();
    }
    if c < CHOICES {
        if machine::hand_ok(full, gates, area, (c - HANDS) / 64, c - HANDS) {
            put_in(links, area, c - HANDS);
            return true;
        }
    }
    false
}
