// What a trace is, and events judged one after another. The definitions are in specs/: Trace (events and traces), Fit
// (which traces are well formed), Table (the words of the table area that hold a trace); in specs/Inner: Tally
// (counters that events are judged by). Assumes nothing.
#![tactic(auto)]

ghost use Rattle.std.specs.Prelude.{List, ℕ, ◌+◌, ◌-◌, ◌*◌, ◌/◌, ◌%◌, ◌≤◌, ◌<◌, length, get_or, set, ◌≡◌};
ghost use Rattle.trace.specs.declared.Event.TheVariants.{Send, Recv, Save, Done};
ghost use Rattle.trace.specs.Inner.Tally.{count_words, fault_by, number_or_zero, tallied, Next};
ghost use Rattle.trace.specs.Trace.{value_of};
ghost use Rattle.trace.specs.Table.{word_of, top_in, kind_in, process_in, peer_in};

pub mod kinds;

// How many processes a run has at most, how many events, and how many checkpoints of one process.
pub const PROCESSES: usize = 64;

pub const EVENTS: usize = 2048;

pub const SAVES: u16 = 30;

// An event of a trace: `ev=send at=A to=B val=V`, `ev=recv at=A from=B`, `ev=save at=A`, `ev=done at=A`.
#[derive(Clone, Copy, Debug, PartialEq, Eq)]
pub enum Event {
    Send { at: u64, to: u64, val: u64 },
    Recv { at: u64, from: u64 },
    Save { at: u64 },
    Done { at: u64 },
}

// What is wrong with an event after others: 3, 4, 5, 6 and 15 of the C interface, in this order.
#[derive(Clone, Copy, Debug, PartialEq, Eq)]
pub enum Unfit {
    NoProcess,
    Itself,
    NothingInTransit,
    TooManySaves,
    NothingToFinish,
}

// Where the planes of the table area begin: the word of event e, from 1, is at EVENT_BASE + e, the low half of its
// value at VALUE_BASE + e, the high half at HIGH_BASE + e.
pub const EVENT_BASE: usize = 16;

pub const VALUE_BASE: usize = EVENT_BASE + EVENTS + 1;

pub const HIGH_BASE: usize = VALUE_BASE + EVENTS + 1;

// The kind of a done, as `kind` gives it; an enum of the kinds is `kinds::Kind`.
pub const DONE: u32 = 0;

// The word of an event in the table area.
pub fn word(e: Event) -> u32
    ensures { result ≡ word_of e }
{
    match e {
        Event::Send { at, to, .. } => (at % 64 + 64 * (to % 64) + 4096) as u32,
        Event::Recv { at, from } => (at % 64 + 64 * (from % 64) + 8192) as u32,
        Event::Save { at } => (at % 64 + 12288) as u32,
        Event::Done { at } => (at % 64) as u32,
    }
}

// The value of an event: that of the message sent, or 0.
pub fn value(e: Event) -> u64
    ensures { result ≡ value_of e }
{
    match e {
        Event::Send { val, .. } => val,
        Event::Recv { .. } | Event::Save { .. } | Event::Done { .. } => 0,
    }
}

// All that a word of the table area has above the peer: the kind, where the word is an event's. For a word that may be
// none.
pub fn top(w: u32) -> u32
    ensures { result ≡ top_in w }
{
    w / 4096
}

// The kind that an event's word in the table area has: 1 send, 2 receive, 3 checkpoint, 0 the end of one.
pub fn kind(w: u32) -> u32
    ensures { result ≡ kind_in w }
{
    top(w) % 4
}

// The process at which it happens.
pub fn process(w: u32) -> usize
    ensures { (result ≡ process_in w) × (result < 64) }
{
    (w % 64) as usize
}

// All that a word has above its process: the peer, and what stands above that.
pub fn above(w: u32) -> u32
    ensures { result ≡ w / 64 }
{
    w / 64
}

// The other process: the receiver of a send, the sender of a receive.
pub fn peer(w: u32) -> usize
    ensures { (result ≡ peer_in w) × (result < 64) }
{
    (above(w) % 64) as usize
}

// How many counters there are: messages in transit, a word for each channel, then checkpoints, a word for each process,
// then those of them that are finished, likewise. Counters have 16 bits, so that they take less to clear.
pub const COUNTS: usize = DONES_BASE + PROCESSES;

const SAVES_BASE: usize = PROCESSES * PROCESSES;

const DONES_BASE: usize = SAVES_BASE + PROCESSES;

// The counter of a channel.
fn channel(from: u64, to: u64) -> usize
    requires { (from < 64) × (to < 64) }
    ensures { (result ≡ 64 * from + to) × (result < 4096) }
{
    (64 * from + to) as usize
}

// What is wrong with a message between two processes: one of them is none, or they are one.
#[tactic(auto, unfolding(crate::specs::Inner::Tally::fault_by))]
fn pair_fault(procs: u64, at: u64, peer: u64) -> Result<(), Unfit>
    ensures { (counts : List ℕ) (val : ℕ) → number_or_zero result ≡ fault_by procs counts (Send at peer val) }
{
    if at >= procs || peer >= procs {
        return Err(Unfit::NoProcess);
    }
    if at == peer {
        return Err(Unfit::Itself);
    }
    Ok(())
}

// What is wrong with a receive: also that nothing is in transit.
fn recv_fault(counts: &[u16], procs: u64, at: u64, from: u64) -> Result<(), Unfit>
    requires { (procs ≤ 64) × (length counts.now ≡ count_words) }
    ensures { number_or_zero result ≡ fault_by procs counts.now (Recv at from) }
{
    pair_fault(procs, at, from)?;
    if counts[channel(from, at)] == 0 {
        return Err(Unfit::NothingInTransit);
    }
    Ok(())
}

// What is wrong with a checkpoint: it is the process's 31st.
#[tactic(auto, unfolding(crate::specs::Inner::Tally::fault_by))]
fn save_fault(counts: &[u16], procs: u64, at: u64) -> Result<(), Unfit>
    requires { (procs ≤ 64) × (length counts.now ≡ count_words) }
    ensures { number_or_zero result ≡ fault_by procs counts.now (Save at) }
{
    if at >= procs {
        return Err(Unfit::NoProcess);
    }
    if counts[SAVES_BASE + at as usize] >= SAVES {
        return Err(Unfit::TooManySaves);
    }
    Ok(())
}

// What is wrong with the end of a checkpoint: the process has no unfinished one.
#[tactic(auto, unfolding(crate::specs::Inner::Tally::fault_by))]
fn done_fault(counts: &[u16], procs: u64, at: u64) -> Result<(), Unfit>
    requires { (procs ≤ 64) × (length counts.now ≡ count_words) }
    ensures { number_or_zero result ≡ fault_by procs counts.now (Done at) }
{
    if at >= procs {
        return Err(Unfit::NoProcess);
    }
    if counts[DONES_BASE + at as usize] >= counts[SAVES_BASE + at as usize] {
        return Err(Unfit::NothingToFinish);
    }
    Ok(())
}

// What is wrong with an event after those that were counted, if anything is (proofs/Faults: `fault_counted`).
pub fn fault(counts: &[u16], procs: u64, e: Event) -> Result<(), Unfit>
    requires { (procs ≤ 64) × (length counts.now ≡ count_words) }
    ensures { number_or_zero result ≡ fault_by procs counts.now e }
{
    match e {
        Event::Send { at, to, .. } => pair_fault(procs, at, to),
        Event::Recv { at, from } => recv_fault(counts, procs, at, from),
        Event::Save { at } => save_fault(counts, procs, at),
        Event::Done { at } => done_fault(counts, procs, at),
    }
}

fn raise(counts: &mut [u16], c: usize)
    requires { (c < length counts.old) × (get_or counts.old c 0 < 65535) }
    ensures { counts.new ≡ set counts.old c (get_or counts.old c 0 + 1) }
{
    counts[c] += 1;
}

fn lower(counts: &mut [u16], c: usize)
    requires { (c < length counts.old) × (0 < get_or counts.old c 0) }
    ensures { counts.new ≡ set counts.old c (get_or counts.old c 0 - 1) }
{
    counts[c] -= 1;
}

// Counts an event.
pub fn tally(counts: &mut [u16], e: Event)
    requires { Next counts.old e }
    ensures { counts.new ≡ tallied counts.old e }
{
    match e {
        Event::Send { at, to, .. } => raise(counts, channel(at, to)),
        Event::Recv { at, from } => lower(counts, channel(from, at)),
        Event::Save { at } => raise(counts, SAVES_BASE + at as usize),
        Event::Done { at } => raise(counts, DONES_BASE + at as usize),
    }
}
