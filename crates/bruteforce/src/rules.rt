// Epochs, phases, restarts, and what a line loses and keeps, in the words of MANUAL 3 and 4.
ghost use Rattle.std.specs.Prelude.{◌≡◌, ◌+◌, ◌*◌, ◌%◌, ◌<◌, ◌≤◌, false, IfSome};
ghost use Rattle.bruteforce.specs.Counts.{SmallRun, times_of, spare, first_word};

use crate::events::{Event, Failure, Kind, STAYS, after, times};
use crate::word;

// Where the run area has the values of the messages received.
const VALUES: usize = 2049;

// The epoch of a process right after event e, counted by its saves: "its initial state counts as save 1. A save raises
// both by one." Counted by its dones, the latest that is finished: "A `done` finishes the oldest unfinished save", so
// that so many dones finish the first so many saves, "epoch 1 being always finished". `kind` is that of a word.
pub fn epoch_by(kind: u32, events: &[u32; 7], e: u32, z: u32) -> u32
    requires { (e ≤ 7) × (z < 4) }
    ensures value { result ≡ 1 + times_of events.now (kind % 4 * 16 + z * 4) e }
    ensures upper_bound { result ≤ 8 }
{
    1 + times(events, e, word::event(kind, z, 0))
}

// The event that sent what process `at` receives from another in event e: channels are first-in first-out, so that the
// message has the receive's number.
fn sent(events: &[u32; 7], e: u32, at: u32, from: u32) -> u32
    requires { e ≤ 7 }
    ensures { result ≤ 7 }
{
    let number = times(events, e, Event::Receive { at, from }.word());
    after(events, e, Event::Send { at: from, to: at }.word(), number)
}

// Is the message that process `at` receives from another in event e logged: "when send epoch < receive epoch".
fn logged(events: &[u32; 7], e: u32, at: u32, from: u32) -> bool
    requires { (e ≤ 7) × (at < 4) × (from < 4) }
{
    let save = Kind::Save as u32;
    epoch_by(save, events, sent(events, e, at, from), from) < epoch_by(save, events, e, at)
}

// Whether event e comes more often, so far, than the event that it needs.
fn exceeds(events: &[u32; 7], e: u32, w: u32, needed: Event) -> bool
    requires { e ≤ 7 }
{
    times(events, e, w) > times(events, e, needed.word())
}

// What is wrong with an event, by the number of its refusal. So few events have no 31st save.
#[derive(Clone, Copy, Debug, PartialEq, Eq)]
pub enum Fault {
    // "a receive with nothing in transit"
    NothingInTransit = 5,
    // "when a `done` finds no unfinished save"
    NothingToFinish = 15,
}

fn fault_of(events: &[u32; 7], e: u32, w: u32) -> Option<Fault>
    requires { e ≤ 7 }
{
    match Event::of(w) {
        Some(Event::Receive { at, from })
            if exceeds(events, e, w, Event::Send { at: from, to: at }) => {
            Some(Fault::NothingInTransit)
        }
        Some(Event::Done { at }) if exceeds(events, e, w, Event::Save { at }) => Some(
            Fault::NothingToFinish,
        ),
        _ => None,
    }
}

// What reading the text of some events is to answer where it is refused.
#[derive(Clone, Copy, Debug, PartialEq, Eq)]
pub struct Refusal {
    pub fault: Fault,
    pub place: u32,
}

// "The first faulty line decides the refusal and its place." Event e stands in line e + 1.
pub fn verdict(events: &[u32; 7], size: u32) -> Option<Refusal>
    requires { size ≤ 7 }
    ensures { IfSome result (λ r. r.place ≤ size + 1) }
{
    for i in 0..size {
        if let Some(fault) = fault_of(events, i + 1, events[i as usize]) {
            return Some(Refusal {
                fault,
                place: i + 2,
            });
        }
    }
    None
}

// "A restart in an epoch is right after the save that raised the zone to it, in epoch 1 at the zone's start. For a zone
// that stays, the cut takes the place of its restart." Where the save's `done` stands does not matter for it.
fn restart(f: Failure, line: &[u32; 4], z: u32) -> u32
    requires { (f.cut ≤ 7) × (z < 4) }
    ensures { result ≤ 7 }
{
    match line[z as usize] {
        STAYS => f.cut,
        0 | 1 => 0,
        epoch => after(&f.events, f.cut, Event::Save { at: z }.word(), epoch - 1),
    }
}

// Does event e receive a message that the line loses: "undone, sent before its sender's restart, and not logged".
fn loses_at(f: Failure, line: &[u32; 4], e: u32, w: u32) -> bool
    requires { (f.cut ≤ 7) × (e ≤ 7) }
{
    let Some(Event::Receive { at, from }) = Event::of(w) else {
        return false;
    };
    e > restart(f, line, at)
        && sent(&f.events, e, at, from) <= restart(f, line, from)
        && !logged(&f.events, e, at, from)
}

// Does a line lose a message. "Only events up to K count here": before the first there is none to lose.
pub fn loses(f: Failure, line: &[u32; 4]) -> bool
    requires { SmallRun f }
    ensures { f.cut ≡ 0 → result ≡ false }
{
    for i in 0..f.cut {
        if loses_at(f, line, i + 1, f.events[i as usize]) {
            return true;
        }
    }
    false
}

// Is event e a send whose message the line keeps: "sent before its sender's restart, and either undone and logged, or
// not yet received at the cut".
fn keeps_at(f: Failure, line: &[u32; 4], e: u32, w: u32) -> bool
    requires { (f.cut ≤ 7) × (e ≤ 7) }
{
    let Some(Event::Send { at, to }) = Event::of(w) else {
        return false;
    };
    if e > restart(f, line, at) {
        return false;
    }
    let receive = Event::Receive { at: to, from: at }.word();
    let number = times(&f.events, e, w);
    if times(&f.events, f.cut, receive) < number {
        return true;
    }
    let r = after(&f.events, f.cut, receive, number);
    r > restart(f, line, to) && logged(&f.events, r, to, at)
}

// The steps of a complete order from a line that loses nothing: every event after its process's restart, and every kept
// message handed over.
pub fn steps(f: Failure, line: &[u32; 4]) -> u32
    requires { SmallRun f }
    ensures { result ≤ 2 * f.size }
{
    let mut n = 0;
    for i in 0..f.size {
        let w = f.events[i as usize];
        if i + 1 > restart(f, line, word::process(w)) {
            n += 1;
        }
        if keeps_at(f, line, i + 1, w) {
            n += 1;
        }
    }
    n
}

// The phase of a process right after event e; `phases` has, for each event up to e, the phase of its process after it.
fn phase(events: &[u32; 7], phases: &[u32; 7], e: u32, z: u32) -> u32
    requires { e ≤ 7 }
{
    let mut p = 1;
    for i in 0..e as usize {
        if word::process(events[i]) == z {
            p = phases[i];
        }
    }
    p
}

// The phase of its process after event e, from those of the events before. "A save raises both by one." "At a receive
// the phase becomes the larger of the zone's own and the message's, or, if logged, of the zone's own and the message's
// plus 1."
fn next_phase(events: &[u32; 7], phases: &[u32; 7], e: u32, w: u32) -> u32
    requires { (1 ≤ e) × (e ≤ 7) }
{
    let own = phase(events, phases, e - 1, word::process(w));
    match Event::of(w) {
        Some(Event::Save { .. }) => own.wrapping_add(1),
        Some(Event::Receive { at, from }) => {
            let carried = phase(events, phases, sent(events, e, at, from), from);
            own.max(carried.wrapping_add(u32::from(logged(events, e, at, from))))
        }
        _ => own,
    }
}

// The phase of its process after each event. None reaches 2^32.
fn phases_of(events: &[u32; 7], size: u32) -> [u32; 7]
    requires { size ≤ 7 }
{
    let mut phases = [0; 7];
    for i in 0..size {
        phases[i as usize] = next_phase(events, &phases, i + 1, events[i as usize]);
    }
    phases
}

// The phases of the processes at their restarts, or at the cut for those that stay. Other places are left as they are.
#[tactic(auto, using(crate::proofs::Counts::spare_kept))]
pub fn phases_at(f: Failure, line: &[u32; 4], at: &mut [u32; 4])
    requires { SmallRun f }
    ensures { spare at.new ≡ spare at.old }
{
    let phases = phases_of(&f.events, f.cut);
    for z in 0..f.count {
        at[z as usize] = phase(&f.events, &phases, restart(f, line, z), z);
    }
}

// The record of the run without failure, as the run area has it: a message's value is the number of the event that sent
// it. The area's first word stays.
#[tactic(auto, using(crate::proofs::Counts::first_kept))]
pub fn record(events: &[u32; 7], size: u32, run: &mut [u32; 16384])
    requires { size ≤ 7 }
    ensures { first_word run.new ≡ first_word run.old }
{
    for i in 0..size {
        let w = events[i as usize];
        let e = i + 1;
        if let Some(Event::Receive { at, from }) = Event::of(w) {
            run[e as usize] = times(events, e, w);
            run[VALUES + e as usize] = sent(events, e, at, from);
        }
    }
}
