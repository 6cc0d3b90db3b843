// The state of a replay in words, and which choices are allowed in it. Every message is its send event, every queue the
// stretch between two pointers into events, so to test one choice costs the same however long the run is; `complete`
// looks at each event once. Tests write nothing; what a choice does is in crate moves. `note_taken` is here for the two
// that put a message on record, and the tree of the least phase for those that build it and that set it.
// specs/Inner/Words says what tests and steps do with words, specs/Inner/Tree what the tree is, specs/Inner/Related how
// words stand for a state of the theory's machine; proofs/Choices that the two agree choice by choice. Assumes nothing.
#![tactic(auto)]

ghost use Rattle.std.specs.Prelude.{◌≡◌, ◌≤◌, ◌<◌, length, get_or, replicate};
ghost use Rattle.words.specs.Area.{area_words};
ghost use Rattle.columns.specs.Inner.Full.{procs_w};
ghost use Rattle.machine.specs.Inner.Words.{current_base, low_place, no_phase, send_ok, event_ok, process_ok, hand_ok, hands_at, least_with, low_of, noted_w, none_runs, none_hands, none_allowed, kept_phase};
ghost use Rattle.machine.specs.Inner.Shapes.{FullLong, Pointed, Ranged, Readable, Aimed};
ghost use Rattle.machine.specs.Inner.Tree.{Tree, Treed, Leafed};

use columns::{NUMBER_BASE, PHASE_BASE, RESTART_BASE};
use trace::kinds::Kind;
use trace::{EVENT_BASE, HIGH_BASE, VALUE_BASE};

// Words of the run area. Word e is the number of the message that receive e took, word TAKEN_BASE + e the low half of
// its value, word TAKEN_HIGH_BASE + e the high half; the working words come after: of each process its next event and
// the send of its next orphan, of each channel the send of its next message to take and of its next message to put in,
// and the least phase of an orphan that is not sent again.
pub const TAKEN_BASE: usize = 2049;

pub const TAKEN_HIGH_BASE: usize = 4098;

pub const CURRENT_BASE: usize = 6147;

pub const ORPHAN_BASE: usize = 6211;

pub const TAKE_BASE: usize = 6275;

pub const PUT_BASE: usize = 10371;

pub const LOW_PLACE: usize = 14467;

// The word that stands for no phase: above that of every orphan.
pub const NO_PHASE: u32 = 4294967295;

// Choices: below HANDS a process, then for each channel that its oldest kept message is handed over; CHOICES and above
// are none.
pub const HANDS: usize = 64;

pub const CHOICES: usize = 4160;

// Words of the tree that tells the least phase: word LEAVES + z is the phase of the next orphan of process z, NO_PHASE
// where it has none; word i, from 1 up to the leaves, is the lesser of words 2 i and 2 i + 1, so that word 1 is the
// least.
pub const TREE_WORDS: usize = 128;

const LEAVES: usize = 64;

// A pointer of the area: an event, or 0.
pub fn pointer(area: &[u32], k: usize) -> usize
    requires { (current_base ≤ k) × (k < low_place) × Pointed area.now }
    ensures word { result ≡ get_or area.now k 0 }
    ensures bound { result < 2049 }
{
    area[k] as usize
}

// The receive e takes the message that event m sends: its number and both halves of its value go on record.
pub fn note_taken(full: &[u32], area: &mut [u32], e: usize, m: usize)
    requires { (e < 2049) × (m < 2049) × FullLong full.now × (length area.old ≡ area_words) }
    ensures { area.new ≡ noted_w full.now area.old e m }
{
    area[e] = full[NUMBER_BASE + m];
    area[TAKEN_BASE + e] = full[VALUE_BASE + m];
    area[TAKEN_HIGH_BASE + e] = full[HIGH_BASE + m];
}

// Is no kept message left on a channel whose next message to put in is sent by event m, and whose sender restarts after
// event x.
pub fn send_ok(x: u32, m: usize) -> bool
    ensures { result ≡ send_ok x m }
{
    if m == 0 {
        return true;
    }
    (x as usize) < m
}

// May process z do event e: a send waits for the kept messages of its channel, a receive needs a message in its
// channel.
fn event_ok(full: &[u32], gates: &[u32], area: &[u32], z: usize, e: usize) -> bool
    requires { (z < 64) × (e < 2049) × Readable full.now gates.now area.now }
    ensures { result ≡ event_ok full.now gates.now area.now z e }
{
    let w = full[EVENT_BASE + e];
    let peer = trace::peer(w);
    match Kind::of(w) {
        Kind::Send => send_ok(
            gates[RESTART_BASE + z],
            pointer(area, PUT_BASE + (64 * z + peer)),
        ),
        Kind::Receive => area[TAKE_BASE + (64 * peer + z)] != area[PUT_BASE + (64 * peer + z)],
        _ => true,
    }
}

// May process z do its next event: there is one, and the phase of its gate is ready.
fn process_ok(full: &[u32], gates: &[u32], area: &[u32], z: usize) -> bool
    requires { (z < 64) × Readable full.now gates.now area.now }
    ensures { result ≡ process_ok full.now gates.now area.now z }
{
    let e = pointer(area, CURRENT_BASE + z);
    if e == 0 {
        return false;
    }
    if gates[z] >= area[LOW_PLACE] {
        return false;
    }
    event_ok(full, gates, area, z, e)
}

// The phase of the oldest kept message of channel c, of sender p; NO_PHASE where none is left.
pub fn kept_phase(full: &[u32], gates: &[u32], area: &[u32], p: usize, c: usize) -> u32
    requires { (p < 64) × (c < 4096) × Readable full.now gates.now area.now }
    ensures { result ≡ kept_phase full.now gates.now area.now p c }
{
    let m = pointer(area, PUT_BASE + c);
    if send_ok(gates[RESTART_BASE + p], m) {
        return NO_PHASE;
    }
    full[PHASE_BASE + m]
}

// May the oldest kept message of channel c, of sender p, be handed over: there is one, and its own phase is ready.
pub fn hand_ok(full: &[u32], gates: &[u32], area: &[u32], p: usize, c: usize) -> bool
    requires { (p < 64) × (c < 4096) × Readable full.now gates.now area.now }
    ensures { result ≡ hand_ok full.now gates.now area.now p c }
{
    kept_phase(full, gates, area, p, c) < area[LOW_PLACE]
}

// The lesser of a phase and that of the orphan sent by event o, if there is one.
fn least_with(full: &[u32], o: usize, low: u32) -> u32
    requires { (o < 2049) × FullLong full.now }
    ensures { result ≡ least_with full.now o low }
{
    if o == 0 {
        return low;
    }
    full[PHASE_BASE + o].min(low)
}

// The least phase of an orphan that is not sent again: of each process the next one is looked at, since its phases
// never fall.
pub fn lowest_phase(full: &[u32], area: &[u32], procs: usize) -> u32
    requires { (procs ≤ 64) × Ranged full.now area.now }
    ensures { result ≡ low_of full.now area.now procs }
{
    let mut low: u32 = NO_PHASE;
    for z in 0..procs {
        low = least_with(full, pointer(area, ORPHAN_BASE + z), low);
    }
    low
}

// The leaf of process z becomes v, and the words above it follow, up to one that stays as it was.
fn set_leaf(tree: &mut [u32], z: usize, v: u32)
    requires { (z < 64) × Tree tree.old }
    ensures { Leafed tree.old tree.new z v }
{
    tree[LEAVES + z] = v;
    let mut i = (LEAVES + z) / 2;
    while i > 0 {
        let least = tree[2 * i].min(tree[2 * i + 1]);
        if tree[i] == least {
            return;
        }
        tree[i] = least;
        i = i / 2;
    }
}

// The next orphan of process z is sent by event o, if there is one. Mostly it has the phase of the one before.
pub fn set_orphan(full: &[u32], tree: &mut [u32], z: usize, o: usize)
    requires { (z < 64) × (o < 2049) × FullLong full.now × Tree tree.old }
    ensures { Leafed tree.old tree.new z (least_with full.now o no_phase) }
{
    let v = least_with(full, o, NO_PHASE);
    if v != tree[LEAVES + z] {
        set_leaf(tree, z, v);
    }
}

// The tree of a first state, from one that has no phase.
pub fn build_tree(full: &[u32], area: &[u32], tree: &mut [u32])
    requires { (procs_w full.now ≤ 64) × Ranged full.now area.now × (tree.old ≡ replicate 128 no_phase) }
    ensures { Treed full.now area.now tree.new }
{
    for z in 0..full[0] as usize {
        set_orphan(full, tree, z, pointer(area, ORPHAN_BASE + z));
    }
}

// May none of the first n processes do its next event.
fn none_runs(full: &[u32], gates: &[u32], area: &[u32], n: usize) -> bool
    requires { (n ≤ 64) × Readable full.now gates.now area.now }
    ensures { result ≡ none_runs full.now gates.now area.now n }
{
    for z in 0..n {
        if process_ok(full, gates, area, z) {
            return false;
        }
    }
    true
}

// May the message that event e sends be handed over: it is the oldest kept message of its channel, and that one may.
fn hands(full: &[u32], gates: &[u32], area: &[u32], e: usize) -> bool
    requires { (e < 2049) × Readable full.now gates.now area.now }
    ensures { result ≡ hands_at full.now gates.now area.now e }
{
    let w = full[EVENT_BASE + e];
    let Kind::Send = Kind::of(w) else {
        return false;
    };
    let p = trace::process(w);
    let c = 64 * p + trace::peer(w);
    if pointer(area, PUT_BASE + c) != e {
        return false;
    }
    hand_ok(full, gates, area, p, c)
}

// May no message of the first n events be handed over.
fn none_hands(full: &[u32], gates: &[u32], area: &[u32], n: usize) -> bool
    requires { (n ≤ 2048) × Readable full.now gates.now area.now }
    ensures { result ≡ none_hands full.now gates.now area.now n }
{
    for e in 0..n {
        if hands(full, gates, area, e + 1) {
            return false;
        }
    }
    true
}

// Is no choice allowed. A kept message is found at its send: each event is looked at once, instead of each channel.
pub fn complete(full: &[u32], gates: &[u32], area: &[u32]) -> bool
    requires { Aimed full.now area.now × Readable full.now gates.now area.now }
    ensures { result ≡ none_allowed full.now gates.now area.now }
{
    if none_runs(full, gates, area, full[0] as usize) {
        return none_hands(full, gates, area, full[1] as usize);
    }
    false
}
