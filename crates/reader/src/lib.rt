// The reader of trace texts. `read` gives the verdict on a text, the refusal with its place or nothing more, and leaves
// the trace's words in the table area. The definitions are in specs/: Verdict (the verdict on a text), Render (the text
// of a trace), Answer (answer and area) and Meaning (what an answer means: a text is accepted exactly if it is the text
// of a well-formed trace, and a refusal is for the first faulty line). No function that users call has a `requires`.
// Assumes nothing.
#![tactic(auto)]

ghost use Rattle.std.specs.Prelude.{◌≡◌, ◌≤◌, ◌<◌, length, drop, replicate, Err, OnErr};
ghost use Rattle.lines.specs.Line.{line_said};
ghost use Rattle.reader.specs.Answer.{verdict_answer, verdict_word, read_answered, read_answer, read_area};
ghost use Rattle.reader.specs.Failure.{trace_of, last_failure, failure_answer_of, failure_answered, failure_answer, failure_area};
ghost use Rattle.reader.specs.Meaning.{ReadAccepts, ReadRefuses, FailureAccepts, FailureTold, FailureRefuses};
ghost use Rattle.words.specs.Area.{area_words, words_from};
ghost use Rattle.trace.specs.Trace.{Trace, started};
ghost use Rattle.trace.specs.Inner.Tally.{count_words};
ghost use Rattle.reader.specs.Verdict.{judge_event, judge, lines_from, pieces, scan, verdict};
ghost use Rattle.reader.specs.Inner.Reading.{Lent, count_only, judged, Tallied, Opened, appended, FirstRead, scanned, ScanOutcome};

use lines::Line;
use refusal::{Refusal, Refused};
use trace::{EVENTS, Event, PROCESSES};
use words::AREA_WORDS;

// The numbers of a failure line.
#[derive(Clone, Copy, Debug, PartialEq, Eq)]
pub struct Failure {
    pub step: u64,
    pub set: u64,
}

// What a line after the first says, where nothing is wrong with it.
#[derive(Clone, Copy, Debug, PartialEq, Eq)]
pub enum Judged {
    Event(Event),
    Failure(Failure),
}

// Where reading the lines ends: the line after the last; or a failure line, its own line and the place after it.
#[derive(Clone, Copy, Debug, PartialEq, Eq)]
pub enum Scanned {
    Ended(usize),
    Failure(Failure, usize, usize),
}

// What the first line of a text says, where only a process count is due. (So the other lines have one reader, which can
// become part of its loop.)
fn first_line(line: &[u8]) -> Line
    ensures { result ≡ count_only (line_said line.now) }
{
    if text::key(line, 0, b"procs=") {
        return lines::procs_line(line);
    }
    Line::Malformed
}

// The process count of a text, and the place where the lines after the first begin.
fn process_count(text: &[u8]) -> Result<(u64, usize), Refused>
    ensures { FirstRead text.now result }
{
    let Some(end) = text::line_end(text, 0) else {
        return Err(Refusal::Malformed.at(1));
    };
    let first = first_line(&text[..end]);
    let Line::Procs(n) = first else {
        return Err(Refusal::Malformed.at(1));
    };
    if n < 2 {
        return Err(Refusal::ProcessCount.at(1));
    }
    if n > PROCESSES as u64 {
        return Err(Refusal::ProcessCount.at(1));
    }
    Ok((n, end + 1))
}

// An event after n others, which are counted.
fn judge_event(counts: &[u16], procs: u64, n: usize, e: Event) -> Result<Judged, Refusal>
    requires { (procs ≤ 64) × (length counts.now ≡ count_words) }
    ensures { (t : Trace) → Tallied counts.now procs n t → judged result ≡ judge_event t e }
{
    if n >= EVENTS {
        return Err(Refusal::TooManyEvents);
    }
    trace::fault(counts, procs, e)?;
    Ok(Judged::Event(e))
}

// A line after the first, where n events stand before it.
fn judge_line(counts: &[u16], procs: u64, n: usize, line: Line) -> Result<Judged, Refusal>
    requires { (procs ≤ 64) × (length counts.now ≡ count_words) }
    ensures { (t : Trace) → Tallied counts.now procs n t → judged result ≡ judge t line }
{
    match line {
        Line::Send(at, to, val) => judge_event(counts, procs, n, Event::Send { at, to, val }),
        Line::Recv(at, from) => judge_event(counts, procs, n, Event::Recv { at, from }),
        Line::Save(at) => judge_event(counts, procs, n, Event::Save { at }),
        Line::Done(at) => judge_event(counts, procs, n, Event::Done { at }),
        Line::Failure(step, set) => Ok(Judged::Failure(Failure { step, set })),
        Line::Procs(_) => Err(Refusal::Malformed),
        Line::Malformed => Err(Refusal::Malformed),
    }
}

// Stores event n + 1 in the table.
fn append(table: &mut [u32], n: usize, e: Event)
    requires { (n < 2048) × (length table.old ≡ area_words) }
    ensures { table.new ≡ appended table.old n e }
{
    table[1] = (n + 1) as u32;
    table[trace::EVENT_BASE + (n + 1)] = trace::word(e);
    let value = trace::value(e);
    table[trace::VALUE_BASE + (n + 1)] = words::low(value);
    table[trace::HIGH_BASE + (n + 1)] = words::high(value);
}

// The lines from a place on, where the table holds a trace of no events and the counters are those of none.
fn read_events(
    text: &[u8],
    from: usize,
    procs: u64,
    table: &mut [u32],
    counts: &mut [u16],
) -> Result<Scanned, Refused>
    requires { Opened text.now from procs table.old counts.old }
    ensures { ScanOutcome text.now (lines_from (started procs) 2 (pieces (drop from text.now))) (scanned result) table.new }
{
    let mut at = from;
    let mut n: usize = 0;
    while at < text.len() {
        let Some((line, next)) = lines::next_line(text, at) else {
            return Err(Refusal::Malformed.at(n + 2));
        };
        match judge_line(counts, procs, n, line) {
            Ok(Judged::Event(event)) => {
                append(table, n, event);
                trace::tally(counts, event);
            }
            Ok(Judged::Failure(failure)) => return Ok(Scanned::Failure(failure, n + 2, next)),
            Err(refusal) => return Err(refusal.at(n + 2)),
        }
        n += 1;
        at = next;
    }
    Ok(Scanned::Ended(n + 2))
}

// A refusal leaves zeros.
fn refuse<T>(table: &mut [u32], refused: Refused) -> Result<T, Refused>
    ensures answer { result ≡ Err refused }
    ensures words { table.new ≡ replicate (length table.old) 0 }
{
    words::zero(table);
    Err(refused)
}

// Leaves zeros in 16,384 words, which may be `clear`, that is zero already.
fn clear_words(table: &mut [u32], clear: bool)
    requires { Lent table.old clear }
    ensures { table.new ≡ replicate (length table.old) 0 }
{
    if !clear {
        words::zero(table);
    }
}

// The lines of a text, into 16,384 words; a refusal leaves zeros. (What is wrong with the first line is seen before
// anything is stored. The words are cleared here and not by callers, in a function that has the stack of the counters
// already: without enough of it nothing is written.)
fn scan(text: &[u8], table: &mut [u32], clear: bool) -> Result<Scanned, Refused>
    requires { Lent table.old clear }
    ensures outcome { ScanOutcome text.now (scan text.now) (scanned result) table.new }
    ensures zeros { OnErr result (table.new ≡ replicate area_words 0) }
{
    let (procs, next) = match process_count(text) {
        Ok(first) => first,
        Err(refused) => return refuse(table, refused),
    };
    clear_words(table, clear);
    table[0] = procs as u32;
    let mut counts = [0; trace::COUNTS];
    match read_events(text, next, procs, table, &mut counts) {
        Ok(scanned) => Ok(scanned),
        Err(refused) => refuse(table, refused),
    }
}

// Reads a text into 16,384 words.
fn read_in(text: &[u8], table: &mut [u32]) -> Result<(), Refused>
    requires { length table.old ≡ area_words }
    ensures answer { read_answered result ≡ verdict_answer (verdict text.now) }
    ensures words { table.new ≡ words_from (verdict_word (verdict text.now)) 0 area_words }
{
    match scan(text, table, false)? {
        Scanned::Ended(_) => Ok(()),
        Scanned::Failure(_, line, _) => refuse(table, Refusal::Malformed.at(line)),
    }
}

// Reads a trace text into the table area: the answer, and the area's first 16,384 words, by the verdict on the text.
pub fn read(text: &[u8], table: &mut [u32]) -> Result<(), Refused>
    ensures answer { read_answered result ≡ read_answer text.now table.old }
    ensures words { table.new ≡ read_area text.now table.old }
    ensures accepts { ReadAccepts text.now (length table.old) (read_answered result).number }
    ensures refuses { ReadRefuses text.now (length table.old) (read_answered result) }
{
    if table.len() < AREA_WORDS {
        return Err(Refusal::ShortArea.at(0));
    }
    read_in(text, &mut table[..AREA_WORDS])
}

// Reads a text that ends with a failure line into 16,384 words, which may be `clear`.
fn read_failure_in(text: &[u8], table: &mut [u32], clear: bool) -> Result<Failure, Refused>
    requires { Lent table.old clear }
    ensures answer { failure_answered result ≡ failure_answer_of (last_failure text.now) }
    ensures words { table.new ≡ words_from (verdict_word (trace_of (last_failure text.now))) 0 area_words }
{
    match scan(text, table, clear)? {
        Scanned::Ended(line) => refuse(table, Refusal::Malformed.at(line)),
        Scanned::Failure(failure, line, next) => {
            if next < text.len() {
                return refuse(table, Refusal::Malformed.at(line + 1));
            }
            Ok(failure)
        }
    }
}

// Reads a trace text whose last line is a failure line into the table area: the answer with the failure's numbers, and
// the area's first 16,384 words, by the lines of the text.
pub fn read_failure(text: &[u8], table: &mut [u32]) -> Result<Failure, Refused>
    ensures answer { failure_answered result ≡ failure_answer text.now table.old }
    ensures words { table.new ≡ failure_area text.now table.old }
    ensures accepts { FailureAccepts text.now (length table.old) (failure_answered result).number }
    ensures told { FailureTold text.now (failure_answered result) }
    ensures refuses { FailureRefuses text.now (length table.old) (failure_answered result) }
{
    if AREA_WORDS > table.len() {
        return Err(Refusal::ShortArea.at(0));
    }
    read_failure_in(text, &mut table[..AREA_WORDS], false)
}

// The same, for crates above this one, into an area of their own that is zero: it is not cleared before.
pub fn read_failure_clear(text: &[u8], table: &mut [u32]) -> Result<Failure, Refused>
    requires { table.old ≡ replicate area_words 0 }
    ensures answer { failure_answered result ≡ failure_answer text.now table.old }
    ensures words { table.new ≡ failure_area text.now table.old }
    ensures accepts { FailureAccepts text.now (length table.old) (failure_answered result).number }
    ensures told { FailureTold text.now (failure_answered result) }
    ensures refuses { FailureRefuses text.now (length table.old) (failure_answered result) }
{
    read_failure_in(text, &mut table[..AREA_WORDS], true)
}
