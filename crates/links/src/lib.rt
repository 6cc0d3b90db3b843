// What a replay begins with: the links between events, lists of kept messages by phase, and the words of the first
// state, from the full table of a trace and the gates of a line. specs/Inner/Linking says what the pass over the events
// does; proofs/Claims says that what it leaves stands for the theory's first state. Assumes nothing.
#![tactic(auto)]

ghost use Rattle.std.specs.Prelude.{◌≡◌, true, ◌+◌, ◌≤◌, ◌<◌, length, get_or, set, replicate};
ghost use Rattle.machine.specs.Inner.Shapes.{Pointed};
ghost use Rattle.columns.specs.Inner.Full.{events_w, event_w, at_w, phase_w};
ghost use Rattle.links.specs.Inner.Linking.{sent_class, sent_l, sent_a, link_l, link_a, head_words, kept_l, kept_h, linked_l, linked_h, linked_a, begin_a};
ghost use Rattle.classes.specs.Inner.Words.{number_of_class};
ghost use Rattle.links.specs.Inner.Shapes.{SendReadable, SlotLinkable, Placed, KeptListable, EventLinkable, AllLinkable, Linkable};

use classes::Class;
use columns::{PHASE_BASE, RESTART_BASE};
use machine::{CURRENT_BASE, LOW_PLACE, ORPHAN_BASE, PUT_BASE, TAKE_BASE};
use trace::EVENT_BASE;
use trace::kinds::Kind;

// Words of the links: word 4 e is the next event of the process of event e, 4 e + 1 the next send whose message goes
// through its channel, 4 e + 2 the next orphan's send of its process, 4 e + 3 the next kept message of its phase. They
// have 16 bits, so that they take less to clear.
pub const LINK_WORDS: usize = 8200;

// Words of the heads: by phase the first kept message of it. A phase is at most one more than the events.
pub const HEAD_WORDS: usize = 2056;

// The class of the message that event e sends, with its word and the event that its process restarts after; none where
// it is no send.
fn class_sent(full: &[u32], gates: &[u32], cut: usize, e: usize, w: u32, restart: usize) -> Class
    requires { SendReadable full.now gates.now e × (w ≡ event_w full.now e) × (restart ≡ get_or gates.now (64 + at_w full.now e) 0) }
    ensures { number_of_class result ≡ sent_class full.now gates.now cut e }
{
    match Kind::of(w) {
        Kind::Send => classes::class_at(full, gates, cut, e, w, restart),
        _ => Class::None,
    }
}

// Event e becomes the pointer at word k of the area, and what was there the link in its slot.
fn chain(links: &mut [u16], area: &mut [u32], slot: usize, k: usize, e: usize)
    requires { SlotLinkable links.old area.old slot k × (e < 2049) }
    ensures links { links.new ≡ set links.old slot (get_or area.old k 0) }
    ensures words { area.new ≡ set area.old k e }
{
    links[slot] = machine::pointer(area, k) as u16;
    area[k] = e as u32;
}

// The links and the pointers of event e, of process z on channel c, by the class of the message that it sends: a kept
// one goes through its channel, and so does one still to be sent, again or for the first time.
#[tactic(auto, unfolding(crate::specs::Inner::Linking::sent_l, crate::specs::Inner::Linking::sent_a, crate::specs::Inner::Linking::goes_class, crate::specs::Inner::Linking::chain_a))]
fn link_sent(links: &mut [u16], area: &mut [u32], z: usize, c: usize, e: usize, class: Class)
    requires { Placed z c e × (8197 ≤ length links.old) × Pointed area.old }
    ensures links { links.new ≡ sent_l links.old area.old z c e (number_of_class class) }
    ensures words { area.new ≡ sent_a area.old z c e (number_of_class class) }
{
    match class {
        Class::Orphan => chain(links, area, 4 * e + 2, ORPHAN_BASE + z, e),
        Class::Kept | Class::Upcoming => {
            chain(links, area, 4 * e + 1, PUT_BASE + c, e);
            area[TAKE_BASE + c] = e as u32;
        }
        Class::None | Class::Lost => {}
    }
}

// The message that event e sends, where it is of the class of kept ones: it goes before those of its phase.
#[tactic(auto, unfolding(crate::specs::Inner::Linking::kept_l, crate::specs::Inner::Linking::kept_h, crate::specs::Inner::Linking::chain_a))]
fn list_kept(full: &[u32], links: &mut [u16], heads: &mut [u16], e: usize, class: Class)
    requires { KeptListable full.now links.old heads.old e }
    ensures links { links.new ≡ kept_l links.old heads.old (phase_w full.now e) e (number_of_class class) }
    ensures heads { heads.new ≡ kept_h heads.old (phase_w full.now e) e (number_of_class class) }
{
    if class == Class::Kept {
        let phase = full[PHASE_BASE + e] as usize;
        links[4 * e + 3] = heads[phase];
        heads[phase] = e as u16;
    }
}

// Event e linked: what the pass over the events does there. A listed one is in its process's chain, a receive before
// the restart in the record; the message that it sends is classified once, and its class is the answer.
fn link_event(
    full: &[u32],
    gates: &[u32],
    links: &mut [u16],
    area: &mut [u32],
    cut: usize,
    e: usize,
) -> Class
    requires { EventLinkable full.now gates.now links.old area.old e }
    ensures links { links.new ≡ link_l full.now gates.now cut links.old area.old e }
    ensures words { area.new ≡ link_a full.now gates.now cut area.old e }
    ensures class { number_of_class result ≡ sent_class full.now gates.now cut e }
{
    let w = full[EVENT_BASE + e];
    let z = trace::process(w);
    let restart = gates[RESTART_BASE + z] as usize;
    if restart < e {
        chain(links, area, 4 * e, CURRENT_BASE + z, e);
        let class = class_sent(full, gates, cut, e, w, restart);
        link_sent(links, area, z, 64 * z + trace::peer(w), e, class);
        return class;
    }
    let class = class_sent(full, gates, cut, e, w, restart);
    link_sent(links, area, z, 64 * z + trace::peer(w), e, class);
    if let Kind::Receive = Kind::of(w) {
        machine::note_taken(full, area, e, columns::matched(full, e));
    }
    class
}

// All n events linked, from the last to the first, and kept messages listed by phase: lists of growing events.
fn link_all(
    full: &[u32],
    gates: &[u32],
    links: &mut [u16],
    heads: &mut [u16],
    area: &mut [u32],
    cut: usize,
    n: usize,
)
    requires { AllLinkable full.now gates.now links.old area.old n × (heads.old ≡ replicate head_words 0) }
    ensures links { links.new ≡ linked_l full.now gates.now cut n n links.old area.old }
    ensures heads { heads.new ≡ linked_h full.now gates.now cut n n }
    ensures words { area.new ≡ linked_a full.now gates.now cut n n area.old }
    ensures bound { Pointed area.new }
{
    for x in (1..=n).rev() {
        let class = link_event(full, gates, links, area, cut, x);
        list_kept(full, links, heads, x, class);
    }
}

// The links, the lists of kept messages by phase and the first state: all events linked, then the least phase of an
// orphan.
pub fn begin_listed(
    full: &[u32],
    gates: &[u32],
    links: &mut [u16],
    heads: &mut [u16],
    area: &mut [u32],
    cut: usize,
)
    requires { Linkable full.now gates.now links.old area.old × (heads.old ≡ replicate head_words 0) }
    ensures links { links.new ≡ linked_l full.now gates.now cut (events_w full.now) (events_w full.now) links.old area.old }
    ensures heads { heads.new ≡ linked_h full.now gates.now cut (events_w full.now) (events_w full.now) }
    ensures words { area.new ≡ begin_a full.now (linked_a full.now gates.now cut (events_w full.now) (events_w full.now) area.old) }
{
    link_all(full, gates, links, heads, area, cut, full[1] as usize);
    area[LOW_PLACE] = machine::lowest_phase(full, area, full[0] as usize);
}

// The links and the first state, for a replay that asks for no lists.
pub fn begin(full: &[u32], gates: &[u32], links: &mut [u16], area: &mut [u32], cut: usize)
    requires { Linkable full.now gates.now links.old area.old }
    ensures links { links.new ≡ linked_l full.now gates.now cut (events_w full.now) (events_w full.now) links.old area.old }
    ensures words { area.new ≡ begin_a full.now (linked_a full.now gates.now cut (events_w full.now) (events_w full.now) area.old) }
{
    let mut heads = [0u16; HEAD_WORDS];
    begin_listed(full, gates, links, &mut heads, area, cut);
}
