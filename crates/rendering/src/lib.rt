// The trace written back: the text of the trace that a table area holds, into a lent buffer. The definitions are in
// specs/Write, what they mean both ways in specs/Meaning; proofs/Claims has the same over definitions alone. (Tried by
// `write!` and `Display`: the same lines take 1.6 to 2.4 times the instructions.) No public function has a `requires`.
// Assumes nothing.
#![tactic(auto)]

ghost use Rattle.std.specs.Prelude.{◌≡◌, [], ◌∷◌, ◌++◌, ◌≤◌, length, get_or};
ghost use Rattle.words.specs.Area.{area_words};
ghost use Rattle.table.specs.Held.{held_events};
ghost use Rattle.lines.specs.Render.{render_event};
ghost use Rattle.reader.specs.Render.{render_events};
ghost use Rattle.writer.specs.Inner.Puts.{Puts};
ghost use Rattle.writer.specs.Inner.Sinks.{Takes};
ghost use Rattle.rendering.specs.Write.{text_of, write_answered, write_answer, write_buffer};
ghost use Rattle.rendering.specs.Meaning.{RoundTrip};

use refusal::{Refusal, Refused};
use trace::{EVENT_BASE, Event, HIGH_BASE, VALUE_BASE};
use words::AREA_WORDS;
use writer::Sink;

// A buffer of so many bytes holds every text.
pub const TEXT_BYTES: usize = 131072;

// The line of an event without its end. Each kind has its own keys here, and not one that is handed over, so that the
// compiler knows their lengths.
fn put_keys(sink: &mut Sink<'_, u8>, e: Event)
    ensures { Takes (render_event e) sink.old sink.new }
{
    match e {
        Event::Send { at, to, val } => {
            sink.put_pair(b"ev=send at=", at);
            sink.put_pair(b" to=", to);
            sink.put_pair(b" val=", val);
        }
        Event::Recv { at, from } => {
            sink.put_pair(b"ev=recv at=", at);
            sink.put_pair(b" from=", from);
        }
        Event::Save { at } => sink.put_pair(b"ev=save at=", at),
        Event::Done { at } => sink.put_pair(b"ev=done at=", at),
    }
}

// The line of an event.
fn put_event(sink: &mut Sink<'_, u8>, e: Event)
    ensures { Takes (render_event e ++ 10 ∷ []) sink.old sink.new }
{
    put_keys(sink, e);
    sink.put_all(b"\n");
}

// The lines of the first n events of an area.
fn put_events(sink: &mut Sink<'_, u8>, table: &[u32], n: usize)
    requires { (area_words ≤ length table.now) × (n ≤ 2048) }
    ensures { Takes (render_events (held_events table.now 1 n)) sink.old sink.new }
{
    for e in 1..n + 1 {
        let value = words::from_halves(table[VALUE_BASE + e], table[HIGH_BASE + e]);
        put_event(sink, table::event(table[EVENT_BASE + e], value));
    }
}

// The text of the trace that an area's words say, from the front of a buffer.
fn put_text(out: &mut [u8], table: &[u32]) -> usize
    requires { (area_words ≤ length table.now) × (get_or table.now 0 0 ≤ 64) × (get_or table.now 1 0 ≤ 2048) }
    ensures { Puts (text_of table.now) out.old 0 out.new result }
{
    let mut sink = Sink { out, next: 0 };
    sink.put_pair(b"procs=", u64::from(table[0]));
    sink.put_all(b"\n");
    put_events(&mut sink, table, table[1] as usize);
    sink.next
}

// Writes the text of the trace that a table area holds into a lent buffer, and answers its length. A buffer that holds
// every text is written straight; into a shorter one the text is copied once its length is known, since a refusal must
// change nothing.
pub fn write(table: &[u32], out: &mut [u8]) -> Result<usize, Refused>
    ensures answer { write_answered result ≡ write_answer table.now (length out.old) }
    ensures buffer { out.new ≡ write_buffer table.now out.old }
    ensures trip { RoundTrip table.now out.old (write_answered result) out.new }
{
    if table.len() < AREA_WORDS {
        return Err(Refusal::ShortArea.at(0));
    }
    if !table::holds_trace(table) {
        return Err(Refusal::NoTrace.at(0));
    }
    if out.len() >= TEXT_BYTES {
        return Ok(put_text(out, table));
    }
    let mut text = [0; TEXT_BYTES];
    let length = put_text(&mut text, table);
    if out.len() < length {
        return Err(Refusal::ShortBuffer.at(0));
    }
    out[..length].copy_from_slice(&text[..length]);
    Ok(length)
}
