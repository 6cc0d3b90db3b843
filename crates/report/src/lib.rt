// The report on a text that ends with a failure line: read, recovered and printed into a lent buffer, byte for byte by
// specs/Report. One area serves for all of it: the text is read into it, the columns of the full table are filled in
// behind the trace, and messages are printed from the columns. Assumes nothing.
#![tactic(auto)]

ghost use Rattle.std.specs.Prelude.{◌≡◌, List, ℕ, ◌+◌, ◌≤◌, length};
ghost use Rattle.trace.specs.Trace.{Trace};
ghost use Rattle.theory.specs.Events.{size};
ghost use Rattle.theory.specs.Epochs.{rule_of};
ghost use Rattle.theory.specs.Answers.{gather};
ghost use Rattle.columns.specs.Inner.Columns.{full_words};
ghost use Rattle.columns.specs.Inner.Given.{Marked};
ghost use Rattle.protocol.specs.Inner.Fillable.{Fillable};
ghost use Rattle.writer.specs.Inner.Puts.{Puts};
ghost use Rattle.writer.specs.Inner.Sinks.{Takes};
ghost use Rattle.writer.specs.Buffer.{room, written};
ghost use Rattle.restart.specs.Restart.{restart_found};
ghost use Rattle.report.specs.Report.{process_line_of, is_refusal, recovery, reported, StepsPrinted, report_bytes};
ghost use Rattle.report.specs.Inner.Rows.{Sends, event_row, event_rows, recovery_rows, Recounts, ReportOf};
ghost use Rattle.reader.specs.Failure.{Failing, last_failure};

use columns::{FULL_WORDS, GATE_WORDS, NUMBER_BASE, PHASE_BASE};
use listing::ENTRIES;
use restart::Restarted;
use trace::EVENT_BASE;
use words::AREA_WORDS;
use writer::Sink;

// How many bytes of a report were written, and whether it is a refusal. (`refused` is no error enum: what may not
// change, `report`'s clause `refused`.)
#[derive(Clone, Copy)]
pub struct Reported {
    pub length: usize,
    pub refused: bool,
}

// A line for each process of the recovery line.
fn put_processes(sink: &mut Sink<'_, u8>, r: Restarted)
    requires { r.line.count ≤ 64 }
    ensures { Takes (gather (process_line_of (restart_found r)) r.line.count) sink.old sink.new }
{
    for z in 0..r.line.count {
        printing::put_process(sink, z as u64, r.epochs[z], r.line.epochs[z], r.phases[z]);
    }
}

// The line of the message that an event sends, by its first key and from the event's words.
#[inline(always)]
fn put_sent(sink: &mut Sink<'_, u8>, key: &[u8], full: &[u32], event: u16)
    requires { (length full.now ≡ full_words) × (event ≤ 2048) }
    ensures { Takes (event_row key.now full.now event) sink.old sink.new }
{
    let e = usize::from(event);
    printing::put_message(
        sink,
        key,
        full[EVENT_BASE + e],
        full[NUMBER_BASE + e],
        full[PHASE_BASE + e],
    );
}

// A line for each of some messages, by their first key and the events that send them. (Put into its callers, as
// `writer`'s methods are.)
#[inline(always)]
fn put_messages(sink: &mut Sink<'_, u8>, key: &[u8], full: &[u32], events: &[u16])
    requires { (length full.now ≡ full_words) × Sends events.now (length events.now) }
    ensures { Takes (event_rows key.now full.now events.now) sink.old sink.new }
{
    for event in events {
        put_sent(sink, key, full, *event);
    }
}

// The lines of a recovery: of its processes, of its orphans and of its kept messages, by the events that send them,
// first those of the orphans, and of the totals.
fn put_recovery(
    out: &mut [u8],
    r: Restarted,
    full: &[u32],
    events: &[u16],
    orphans: usize,
    kept: usize,
    steps: usize,
) -> usize
    requires { (length full.now ≡ full_words) × (r.line.count ≤ 64) × Sends events.now (orphans + kept) }
    ensures { Puts (recovery_rows (restart_found r) full.now events.now orphans kept steps) out.old 0 out.new result }
{
    let mut sink = Sink { out, next: 0 };
    put_processes(&mut sink, r);
    put_messages(&mut sink, b"out=orphan from=", full, &events[..orphans]);
    put_messages(
        &mut sink,
        b"out=kept from=",
        full,
        &events[orphans..orphans + kept],
    );
    printing::put_total(&mut sink, r.back, orphans, kept, steps);
    sink.next
}

// The report of a failure that is not refused, from the full table. The engine's line loses no message, so that its
// lowest order has as many steps as there are listed events and kept messages: they are counted.
fn report_from(full: &[u32], cut: usize, set: u64, out: &mut [u8]) -> usize
    requires { (t : Trace) × Marked t (rule_of t) full.now × (cut ≤ size t) }
    ensures { (t : Trace) → Marked t (rule_of t) full.now → cut ≤ size t
        → Recounts (record { trace = t; step = cut; failed = set }) out.old out.new result }
{
    let restarted = restart::restart_from(full, cut, set);
    let mut gates = [0u32; GATE_WORDS];
    preparing::gates_of(full, restarted.line, cut, &mut gates);
    let mut events = [0u16; ENTRIES];
    let counts = listing::entries(full, &gates, cut, &mut events);
    let steps = steps::listed_events(full, &gates) + counts.kept;
    put_recovery(
        out,
        restarted,
        full,
        &events,
        counts.orphans,
        counts.kept,
        steps,
    )
}

// The report on a failure of the trace that was read: its words stand in the table, and the columns are filled in
// behind them. What was read is a trace, so that it is not checked again.
fn report_in(full: &mut [u32], step: u64, set: u64, out: &mut [u8]) -> Reported
    requires { (t : Trace) × Fillable t full.old }
    ensures { (t : Trace) (text : List ℕ) → Fillable t full.old → last_failure text ≡ Failing.failing t step set
        → ReportOf text result.refused result.length out.old out.new }
{
    protocol::fill_in_place(full);
    match faults::failure_fault(full, step, set) {
        Ok(()) => Reported {
            length: report_from(full, step as usize, set, out),
            refused: false,
        },
        Err(refusal) => Reported {
            length: printing::put_refusal(out, refusal.number(), 0),
            refused: true,
        },
    }
}

// The report on a text, into a lent buffer: all its bytes, or as many as there is room for. A text may have any length.
pub fn report(text: &[u8], out: &mut [u8]) -> Reported
    ensures refused { result.refused ≡ is_refusal (recovery text.now) }
    ensures length { result.length ≡ length (room (reported text.now) out.old) }
    ensures bytes { out.new ≡ written (reported text.now) out.old }
    ensures exact { StepsPrinted text.now }
    ensures few { length (reported text.now) ≤ report_bytes }
{
    let mut area = [0u32; AREA_WORDS];
    match reader::read_failure_clear(text, &mut area) {
        Ok(failure) => report_in(&mut area[..FULL_WORDS], failure.step, failure.set, out),
        Err(refused) => Reported {
            length: printing::put_refusal(out, refused.refusal.number(), refused.place),
            refused: true,
        },
    }
}
