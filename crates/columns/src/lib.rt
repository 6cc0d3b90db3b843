// The full table of a trace: for each send the number of its message, for each event the epoch and the phase of its
// process and the event that it is matched with, for each receive whether its message is logged. specs/Inner/Columns
// says what each word means; the functions judge one event by working words and store what it adds, by
// specs/Inner/Filling, and proofs/Passes says that event by event that makes the columns. specs/Inner/Given says what
// the table and the gates of a line tell of a run, for all that reads them. Assumes nothing.
#![tactic(auto)]

ghost use Rattle.std.specs.Prelude.{◌≡◌, true, false, max, ◌≤◌, ◌<◌, ltb, length, get_or};
ghost use Rattle.trace.specs.declared.Event.TheVariants.{Send, Recv, Save, Done};
ghost use Rattle.theory.specs.Epochs.{joined};
ghost use Rattle.columns.specs.Inner.Columns.{full_words};
ghost use Rattle.columns.specs.Inner.Full.{procs_w, match_w};
ghost use Rattle.columns.specs.Inner.Filling.{work_words, placed, stored, or_new, send_full, send_work, recv_full, recv_work, local_full, local_work, note_full, note_work, oldest_of, pair_fits, fit_in, LocalNotable, Notable, Storable, Awaits};

use trace::Event;

// Where the columns of the full table begin: the word of event e is at the base + e.
pub const NUMBER_BASE: usize = 6163;

pub const EPOCH_BASE: usize = 8212;

pub const PHASE_BASE: usize = 10261;

pub const MATCH_BASE: usize = 12310;

// In the column of numbers: a receive has none of its own.
pub const LOGGED_BASE: usize = 6163;

// The words before this are those of the trace, as in the table area.
pub const TRACE_WORDS: usize = 6163;

// How many words the full table has.
pub const FULL_WORDS: usize = 14359;

// How many words the gates of a line have, and where the restarts begin in them (specs/Inner/Given: `Gated`).
pub const GATE_WORDS: usize = 128;

pub const RESTART_BASE: usize = 64;

// Where the working words begin: each process's epoch, from 0 on, its phase and its latest finished epoch, each
// channel's oldest and latest send, each send's next on its channel. They have 16 bits, so that they take less to
// clear.
const PHASES: usize = 64;

const FINISHED: usize = 128;

const OLDEST: usize = 192;

const LATEST: usize = 4288;

const NEXT: usize = 8384;

pub const WORK_WORDS: usize = 10433;

// So many working words begin with 1, the others with 0.
pub const ONES: usize = 192;

// The event that event e is matched with: the receive of the message that it sends, or the send of the message that it
// receives.
pub fn matched(full: &[u32], e: usize) -> usize
    requires { (length full.now ≡ full_words) × (e ≤ 2048) × (match_w full.now e ≤ 2048) }
    ensures { (result ≡ match_w full.now e) × (result ≤ 2048) }
{
    full[MATCH_BASE + e] as usize
}

// How many processes the trace has.
pub fn processes(full: &[u32]) -> usize
    requires { (length full.now ≡ full_words) × (procs_w full.now ≤ 64) }
    ensures { (result ≡ procs_w full.now) × (result ≤ 64) }
{
    full[0] as usize
}

// A word that is an event's number, as an index.
fn event_no(words: &[u16], k: usize) -> usize
    requires { (k < length words.now) × (get_or words.now k 0 ≤ 2048) }
    ensures { (result ≡ get_or words.now k 0) × (result ≤ 2048) }
{
    usize::from(words[k])
}

// The oldest send in transit to a from b, 0 where there is none.
fn oldest(work: &[u16], a: usize, b: usize) -> u16
    requires { (a < 64) × (b < 64) × (length work.now ≡ work_words) }
    ensures { result ≡ oldest_of work.now a b }
{
    work[OLDEST + (64 * b + a)]
}

// Stores the columns of event e, all but its number.
fn place(full: &mut [u32], e: usize, epoch: u32, phase: u32, mate: u32)
    requires { (e ≤ 2048) × (length full.old ≡ full_words) }
    ensures { full.new ≡ placed full.old e epoch phase mate }
{
    full[EPOCH_BASE + e] = epoch;
    full[PHASE_BASE + e] = phase;
    full[MATCH_BASE + e] = mate;
}

// Stores the columns of event e.
fn store(full: &mut [u32], e: usize, number: u32, epoch: u32, phase: u32, mate: u32)
    requires { (e ≤ 2048) × (length full.old ≡ full_words) }
    ensures { full.new ≡ stored full.old e number epoch phase mate }
{
    full[NUMBER_BASE + e] = number;
    place(full, e, epoch, phase, mate);
}

// Is a message logged that was sent in one epoch and received in another: it is decided here, and every layer above
// reads what this says.
fn is_logged(sent: u32, received: u32) -> bool
    ensures { result ≡ ltb sent received }
{
    sent < received
}

// The phase after a receive: a logged message counts one more.
fn joined_phase(logged: bool, own: u32, carried: u32) -> u32
    requires { (own < 65536) × (carried < 65535) }
    ensures phase { result ≡ joined logged own carried }
    ensures bound { result < 65536 }
{
    own.max(carried + u32::from(logged))
}

// Event e, a send of a to b.
fn note_send(full: &mut [u32], work: &mut [u16], e: usize, a: usize, b: usize)
    requires { Storable full.old work.old e × Notable full.old work.old (Send a b 0) }
    ensures columns { full.new ≡ send_full full.old work.old e a b }
    ensures working { work.new ≡ send_work work.old e a b }
{
    let c = 64 * a + b;
    let latest = event_no(work, LATEST + c);
    let waiting = oldest(work, b, a);
    let first = if waiting == 0 { e as u16 } else { waiting };
    let number = full[NUMBER_BASE + latest] + 1;
    store(
        full,
        e,
        number,
        u32::from(work[a]),
        u32::from(work[PHASES + a]),
        0,
    );
    work[NEXT + latest] = e as u16;
    work[LATEST + c] = e as u16;
    work[OLDEST + c] = first;
}

// Event e, a receive of a from b: the channel's oldest send d is matched with it.
fn note_recv(full: &mut [u32], work: &mut [u16], e: usize, a: usize, b: usize)
    requires { Storable full.old work.old e × Notable full.old work.old (Recv a b) }
    ensures columns { full.new ≡ recv_full full.old work.old e (oldest_of work.old a b) a }
    ensures working { work.new ≡ recv_work full.old work.old (oldest_of work.old a b) a b }
{
    let c = 64 * b + a;
    let d = event_no(work, OLDEST + c);
    let next = work[NEXT + d];
    let epoch = u32::from(work[a]);
    let logged = is_logged(full[EPOCH_BASE + d], epoch);
    let phase = joined_phase(logged, u32::from(work[PHASES + a]), full[PHASE_BASE + d]);
    place(full, e, epoch, phase, d as u32);
    full[MATCH_BASE + d] = e as u32;
    full[LOGGED_BASE + e] = u32::from(logged);
    work[PHASES + a] = phase as u16;
    work[OLDEST + c] = next;
}

// Event e, a local one of a: its epoch and its phase rise by `up`; where that is 0, its latest finished epoch by 1.
fn note_local(full: &mut [u32], work: &mut [u16], e: usize, a: usize, up: u16)
    requires { Storable full.old work.old e × LocalNotable work.old a × (up ≤ 1) }
    ensures columns { full.new ≡ local_full full.old work.old e a up }
    ensures working { work.new ≡ local_work work.old a up }
{
    let epoch = work[a] + up;
    let phase = work[PHASES + a] + up;
    let finished = work[FINISHED + a] + (1 - up);
    store(full, e, 0, u32::from(epoch), u32::from(phase), 0);
    work[a] = epoch;
    work[PHASES + a] = phase;
    work[FINISHED + a] = finished;
}

// Are these two processes, and not one.
fn pair_fits(procs: usize, a: usize, b: usize) -> bool
    ensures { result ≡ pair_fits procs a b }
{
    a < procs && b < procs && a != b
}

// Is an event fit after those that were noted: there is a message to take where one is in transit; a process's 31st
// checkpoint would begin epoch 32; and there is one to finish where a later epoch than the latest finished one has
// begun.
fn fits(work: &[u16], procs: usize, event: Event) -> bool
    requires { (procs ≤ 64) × (length work.now ≡ work_words) }
    ensures { result ≡ fit_in procs work.now event }
{
    match event {
        Event::Send { at, to, val: _ } => pair_fits(procs, at as usize, to as usize),
        Event::Recv { at, from } => {
            let (a, b) = (at as usize, from as usize);
            pair_fits(procs, a, b) && oldest(work, a, b) != 0
        }
        Event::Save { at } => {
            let a = at as usize;
            a < procs && work[a] < 31
        }
        Event::Done { at } => {
            let a = at as usize;
            a < procs && work[FINISHED + a] < work[a]
        }
    }
}

// Notes event e, if it is fit after those that were noted; whether that is so. Where it is not, nothing changes.
pub fn note(full: &mut [u32], work: &mut [u16], procs: usize, e: usize, event: Event) -> bool
    requires { Awaits procs full.old work.old e }
    ensures answer { result ≡ fit_in procs work.old event }
    ensures refused { result ≡ false → (full.new ≡ full.old) × (work.new ≡ work.old) }
    ensures columns { result ≡ true → full.new ≡ note_full full.old work.old e event }
    ensures working { result ≡ true → work.new ≡ note_work full.old work.old e event }
{
    if !fits(work, procs, event) {
        return false;
    }
    match event {
        Event::Send { at, to, val: _ } => note_send(full, work, e, at as usize, to as usize),
        Event::Recv { at, from } => note_recv(full, work, e, at as usize, from as usize),
        Event::Save { at } => note_local(full, work, e, at as usize, 1),
        Event::Done { at } => note_local(full, work, e, at as usize, 0),
    }
    true
}
