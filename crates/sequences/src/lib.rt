// Every small sequence of events by its number, and its text: what a gate program goes through. Assumes what `libc`
// assumes.
#![tactic(auto)]

ghost use Rattle.std.specs.Prelude.{◌≤◌, ◌<◌, length};
ghost use Rattle.io.specs.Counts.{IsPrefixLen};

use bruteforce::{Event, word};

// What a process can do, by number from 0: a checkpoint, a done, a send to each other process, a receive from each
// other.
fn nth_event(count: u32, at: u32, which: u32) -> Event
    requires { (2 ≤ count) × (at < 4) × (which < 8) }
{
    match which {
        0 => Event::Save { at },
        1 => Event::Done { at },
        _ if which <= count => Event::Send {
            at,
            to: (at + which - 1) % count,
        },
        _ => Event::Receive {
            at,
            from: (at + which) % count,
        },
    }
}

// The sequence of events with number x, and its length. Its events are the digits of x in a numeration without a digit
// 0, so that every sequence has one number and short ones come first.
pub fn sequence(count: u32, x: u32, events: &mut [u32; 7]) -> u32
    requires { (2 ≤ count) × (count ≤ 3) }
    ensures { result ≤ 7 }
{
    let all = 2 * count;
    let mut rest = x;
    for i in 0..7 {
        if rest == 0 {
            return i;
        }
        let at = (rest - 1) % count;
        let which = (rest - 1) / count % all;
        events[i as usize] = nth_event(count, at, which).word();
        rest = (rest - 1) / count / all;
    }
    7
}

// An event's line. The value of a send is the event's number: no two sends have the same. (A word of a kind above 3 is
// written as a send too: what may not change.)
fn put_event(text: &mut [u8], place: usize, w: u32, number: u32) -> usize
    requires { place ≤ length text.old }
    ensures { result ≤ length text.new }
{
    match Event::of(w) {
        Some(Event::Save { at }) => checks::put(text, place, b"ev=save at=#\n", &[u64::from(at)]),
        Some(Event::Done { at }) => checks::put(text, place, b"ev=done at=#\n", &[u64::from(at)]),
        Some(Event::Receive { at, from }) => checks::put(
            text,
            place,
            b"ev=recv at=# from=#\n",
            &[u64::from(at), u64::from(from)],
        ),
        Some(Event::Send { .. }) | None => checks::put(
            text,
            place,
            b"ev=send at=# to=# val=#\n",
            &[
                u64::from(word::process(w)),
                u64::from(word::peer(w)),
                u64::from(number),
            ],
        ),
    }
}

// The text of a sequence of events, and its length. (Buffers of fixed size and a length beside, here and in `sequence`:
// nothing here allocates.)
pub fn put_trace(text: &mut [u8], count: u32, events: &[u32; 7], size: u32) -> usize
    requires { size ≤ 7 }
    ensures { IsPrefixLen result text.new }
{
    let mut to = checks::put(text, 0, b"procs=#\n", &[u64::from(count)]);
    for i in 0..size {
        to = put_event(text, to, events[i as usize], i + 1);
    }
    to
}
