// Events, and how often their words come in an array of them.
ghost use Rattle.std.specs.Prelude.{◌≡◌, ◌≤◌, IfSome};
ghost use Rattle.bruteforce.specs.Counts.{times_of, after_of};
ghost use Rattle.bruteforce.specs.Events.{small_word_of, small_event_of, SmallEvent};

use crate::word;

// In a line: the process stays as it was at the cut.
pub const STAYS: u32 = 32;

// A trace of `size` events of `count` processes, and a failure of the processes of a set right after event `cut`.
#[derive(Clone, Copy)]
pub struct Failure {
    pub count: u32,
    pub events: [u32; 7],
    pub size: u32,
    pub cut: u32,
    pub set: u64,
}

// Kinds of an event: the sixteens of its word.
#[derive(Clone, Copy, Debug, PartialEq, Eq)]
pub enum Kind {
    Save = 0,
    Send = 1,
    Receive = 2,
    Done = 3,
}

// An event: what a process does, and to or from which other.
#[derive(Clone, Copy, Debug, PartialEq, Eq)]
pub enum Event {
    Save { at: u32 },
    Send { at: u32, to: u32 },
    Receive { at: u32, from: u32 },
    Done { at: u32 },
}

impl Event {
    // The event of a word, if there is one: a word has more kinds than there are.
    pub fn of(w: u32) -> Option<Event>
        ensures value { result ≡ small_event_of w }
        ensures small { IfSome result SmallEvent }
    {
        let at = word::process(w);
        let peer = word::peer(w);
        match word::kind(w) {
            0 => Some(Event::Save { at }),
            1 => Some(Event::Send { at, to: peer }),
            2 => Some(Event::Receive { at, from: peer }),
            3 => Some(Event::Done { at }),
            _ => None,
        }
    }

    // Its word.
    pub fn word(self) -> u32
        ensures { result ≡ small_word_of self }
    {
        match self {
            Event::Save { at } => word::event(Kind::Save as u32, at, 0),
            Event::Send { at, to } => word::event(Kind::Send as u32, at, to),
            Event::Receive { at, from } => word::event(Kind::Receive as u32, at, from),
            Event::Done { at } => word::event(Kind::Done as u32, at, 0),
        }
    }
}

// How many of the first `upto` events are this one.
pub(crate) fn times(events: &[u32; 7], upto: u32, w: u32) -> u32
    requires { upto ≤ 7 }
    ensures value { result ≡ times_of events.now w upto }
    ensures upper_bound { result ≤ upto }
{
    let mut n = 0;
    for i in 0..upto {
        n += u32::from(events[i as usize] == w);
    }
    n
}

// Right after which event this one has come so many times; not past `upto`.
pub(crate) fn after(events: &[u32; 7], upto: u32, w: u32, number: u32) -> u32
    requires { upto ≤ 7 }
    ensures value { result ≡ after_of events.now w number upto }
    ensures upper_bound { result ≤ upto }
{
    for i in 0..upto {
        if times(events, i, w) >= number {
            return i;
        }
    }
    upto
}
