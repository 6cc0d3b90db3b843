// The table area checked. `holds_trace` says whether an area's words are what reading some accepted trace leaves there
// (13 where they are not), for every area, however filled. The definitions are in specs/Held: the trace that an area
// holds. proofs/Claims states that an area holds a trace exactly if its words are those of a well-formed trace, which
// is what a reading leaves. No public function has a `requires`. Assumes nothing.
#![tactic(auto)]

ghost use Rattle.std.specs.Prelude.{◌≡◌, [], ◌-◌, ◌≤◌, length, fold, bit_or};
ghost use Rattle.words.specs.Area.{area_words};
ghost use Rattle.table.specs.Held.{event_of, holds_trace};
ghost use Rattle.table.specs.Inner.Tested.{zeros_from, read_event, fit_from, zeros_tested, framed};

use trace::{EVENT_BASE, EVENTS, Event, HIGH_BASE, PROCESSES, VALUE_BASE};
use words::AREA_WORDS;

// The event that a word and a value of the table area say, whatever they are. (`Kind::of` looks at two bits alone; here
// a word with a bit above them is read as a done's.)
#[tactic(auto, unfolding(crate::specs::Held::event_of))]
pub fn event(word: u32, value: u64) -> Event
    ensures { result ≡ event_of word value }
{
    let at = trace::process(word) as u64;
    let other = trace::peer(word) as u64;
    match trace::top(word) {
        1 => Event::Send {
            at,
            to: other,
            val: value,
        },
        2 => Event::Recv { at, from: other },
        3 => Event::Save { at },
        _ => Event::Done { at },
    }
}

// What stands above the process in the word of a checkpoint, kind 3 and no peer in one number, and in that of the end
// of one, kind 0 and no peer.
pub const CHECKPOINT_WORD: u32 = 192;

pub const DONE_WORD: u32 = 0;

// The event of which a word and a value are those, if there is one. One test for each kind of word, so that the event's
// kind is asked once.
pub fn read_event(word: u32, value: u64) -> Option<Event>
    ensures { result ≡ read_event word value }
{
    let at = trace::process(word) as u64;
    let peer = trace::peer(word) as u64;
    if trace::top(word) == 1 {
        return Some(Event::Send {
            at,
            to: peer,
            val: value,
        });
    }
    if value != 0 {
        return None;
    }
    if trace::top(word) == 2 {
        return Some(Event::Recv { at, from: peer });
    }
    let above = trace::above(word);
    if above == CHECKPOINT_WORD {
        return Some(Event::Save { at });
    }
    if above != DONE_WORD {
        return None;
    }
    Some(Event::Done { at })
}

// All words together. There is no way out between them, so that the machine can take several at once.
fn together(words: &[u32]) -> u32
    ensures { result ≡ fold bit_or 0 words.now }
{
    words.iter().fold(0, |any, word| any | *word)
}

// Whether the words from a place up to another are 0, as most words of an area are.
fn zeros(area: &[u32], from: usize, to: usize) -> bool
    requires { (from ≤ to) × (to ≤ length area.now) }
    ensures { result ≡ zeros_from area.now from (to - from) }
{
    together(&area[from..to]) == 0
}

// Whether the first n events are fit one after another and have the words that the area has.
fn events_fit(area: &[u32], procs: u64, n: usize) -> bool
    requires { (procs ≤ 64) × (n ≤ 2048) × (area_words ≤ length area.now) }
    ensures { result ≡ fit_from procs [] area.now 1 n }
{
    let mut counts = [0; trace::COUNTS];
    for i in 1..n + 1 {
        let value = words::from_halves(area[VALUE_BASE + i], area[HIGH_BASE + i]);
        let Some(event) = read_event(area[EVENT_BASE + i], value) else {
            return false;
        };
        match trace::fault(&counts, procs, event) {
            Ok(()) => trace::tally(&mut counts, event),
            Err(_) => return false,
        }
    }
    true
}

// Whether the places of an area that are no event's, where it says n events, are 0.
fn zeros_fit(area: &[u32], n: usize) -> bool
    requires { area_words ≤ length area.now }
    ensures { result ≡ zeros_tested area.now n }
{
    if n > EVENTS {
        return false;
    }
    if !zeros(area, 2, EVENT_BASE + 1) {
        return false;
    }
    if !zeros(area, EVENT_BASE + 1 + n, VALUE_BASE + 1) {
        return false;
    }
    if !zeros(area, VALUE_BASE + 1 + n, HIGH_BASE + 1) {
        return false;
    }
    zeros(area, HIGH_BASE + 1 + n, AREA_WORDS)
}

// Whether an area is as one with a trace, but for its events: the size, the counts of processes and of events, and 0 in
// every place that is no event's.
pub fn frame_fits(area: &[u32]) -> bool
    ensures { result ≡ framed area.now }
{
    if area.len() < AREA_WORDS {
        return false;
    }
    let procs = area[0] as usize;
    if procs < 2 {
        return false;
    }
    if procs > PROCESSES {
        return false;
    }
    zeros_fit(area, area[1] as usize)
}

// Whether the first 16,384 words of an area are what reading some accepted trace leaves there.
pub fn holds_trace(area: &[u32]) -> bool
    ensures { result ≡ holds_trace area.now }
{
    if !frame_fits(area) {
        return false;
    }
    events_fit(area, u64::from(area[0]), area[1] as usize)
}
