// The library for C and Rust: its public functions under plain names, numbers and slices only (include/hallback.h).
// Each returns the number of the refusal, or 0, and writes the rest of its answer into a lent slice, as far as that has
// room (specs/Answers). No function has a `requires`. Assumes nothing.
#![tactic(auto)]

ghost use Rattle.std.specs.Prelude.{◌≡◌, ◌≤◌, ◌∷◌, length};
ghost use Rattle.refusal.specs.Refusals.{number_of_refusal};
ghost use Rattle.writer.specs.Buffer.{room, written};
ghost use Rattle.reader.specs.Answer.{read_answer, read_area, read_answered};
ghost use Rattle.reader.specs.Failure.{failure_answer, failure_area, failure_answered};
ghost use Rattle.reader.specs.Meaning.{ReadAccepts, FailureAccepts};
ghost use Rattle.capi.specs.Reads.{ReadRefusesIn, FailureToldIn, FailureRefusesIn};
ghost use Rattle.rendering.specs.Write.{write_answer, write_buffer};
ghost use Rattle.rendering.specs.Meaning.{RoundTrip};
ghost use Rattle.theory.specs.Order.{lowest_order};
ghost use Rattle.preparing.specs.Faults.{run_of};
ghost use Rattle.recovery.specs.Answers.{replay_answer, replay_area, replay_answered, Recorded};
ghost use Rattle.messages.specs.Messages.{messages_answer, messages_area, messages_answered};
ghost use Rattle.restart.specs.Restart.{restart_answer, restart_answered};
ghost use Rattle.report.specs.Report.{reported, StepsPrinted, report_bytes};
ghost use Rattle.capi.specs.Answers.{line_given, read_numbers, failure_numbers, write_numbers, restart_numbers, messages_numbers, replay_numbers, lowest_answer, lowest_area, ExactIn, LowestExactIn, AtMostIn, CarriesOutIn, CompletedIn, RestartsIn, ListsIn, LowestEqualIn, EqualIn};

use messages::Counted;
use orders::Replayed;
use reader::Failure;
use recovery_line::Line;
use refusal::Refused;
use restart::Restarted;
use writer::Sink;

// Numbers into the slice of an answer, from its front.
fn put_numbers(answer: &mut [u64], numbers: &[u64])
    ensures { answer.new ≡ written numbers.now answer.old }
{
    let mut sink = Sink {
        out: answer,
        next: 0,
    };
    sink.put_all(numbers);
}

// A refusal in numbers: its place, and the others, which are 0. Its own number is returned.
fn put_refused(answer: &mut [u64], refused: Refused, others: &[u64]) -> u32
    ensures number { result ≡ number_of_refusal refused.refusal }
    ensures numbers { answer.new ≡ written (refused.place ∷ others.now) answer.old }
{
    let mut sink = Sink {
        out: answer,
        next: 0,
    };
    sink.put(refused.place as u64);
    sink.put_all(others);
    refused.refusal.number()
}

// A line from the slice of its numbers.
fn line_from(numbers: &[u32]) -> Line
    ensures { result ≡ line_given numbers.now }
{
    let mut epochs = [0; 64];
    for (z, epoch) in epochs.iter_mut().enumerate() {
        *epoch = numbers.get(z).copied().unwrap_or(0);
    }
    Line {
        epochs,
        count: numbers.len(),
    }
}

// What a reading answers, and its number.
fn put_read(answer: &mut [u64], outcome: Result<(), Refused>) -> u32
    ensures number { result ≡ (read_answered outcome).number }
    ensures numbers { answer.new ≡ written (read_numbers (read_answered outcome)) answer.old }
{
    match outcome {
        Ok(()) => {
            put_numbers(answer, &[0]);
            0
        }
        Err(refused) => put_refused(answer, refused, &[]),
    }
}

// Reads a trace text into the table area. Answer: place.
#[unsafe(no_mangle)]
pub extern "C" fn hallback_read(text: &[u8], table: &mut [u32], answer: &mut [u64]) -> u32
    ensures number { result ≡ (read_answer text.now table.old).number }
    ensures words { table.new ≡ read_area text.now table.old }
    ensures numbers { answer.new ≡ written (read_numbers (read_answer text.now table.old)) answer.old }
    ensures accepts { ReadAccepts text.now (length table.old) result }
    ensures refuses { ReadRefusesIn text.now (length table.old) result answer.new }
{
    let outcome = reader::read(text, table);
    put_read(answer, outcome)
}

// What reading a failure answers, and its number.
fn put_failure(answer: &mut [u64], outcome: Result<Failure, Refused>) -> u32
    ensures number { result ≡ (failure_answered outcome).number }
    ensures numbers { answer.new ≡ written (failure_numbers (failure_answered outcome)) answer.old }
{
    match outcome {
        Ok(failure) => {
            put_numbers(answer, &[0, failure.step, failure.set]);
            0
        }
        Err(refused) => put_refused(answer, refused, &[0, 0]), // a failure: its step and its set
    }
}

// The same for a text whose last line is a failure line. Answer: place, step, set.
#[unsafe(no_mangle)]
pub extern "C" fn hallback_read_failure(text: &[u8], table: &mut [u32], answer: &mut [u64]) -> u32
    ensures number { result ≡ (failure_answer text.now table.old).number }
    ensures words { table.new ≡ failure_area text.now table.old }
    ensures numbers { answer.new ≡ written (failure_numbers (failure_answer text.now table.old)) answer.old }
    ensures accepts { FailureAccepts text.now (length table.old) result }
    ensures told { FailureToldIn text.now result answer.new }
    ensures refuses { FailureRefusesIn text.now (length table.old) result answer.new }
{
    let outcome = reader::read_failure(text, table);
    put_failure(answer, outcome)
}

// Writes the text of the trace that a table area holds into a byte buffer. Answer: place, length.
#[unsafe(no_mangle)]
pub extern "C" fn hallback_write(table: &[u32], out: &mut [u8], answer: &mut [u64]) -> u32
    ensures number { result ≡ (write_answer table.now (length out.old)).number }
    ensures buffer { out.new ≡ write_buffer table.now out.old }
    ensures numbers { answer.new ≡ written (write_numbers (write_answer table.now (length out.old))) answer.old }
    ensures trip { RoundTrip table.now out.old (write_answer table.now (length out.old)) out.new }
{
    match rendering::write(table, out) {
        Ok(length) => {
            put_numbers(answer, &[0, length as u64]);
            0
        }
        Err(refused) => put_refused(answer, refused, &[0]),
    }
}

// What a restart answers, and its number.
fn put_restart(answer: &mut [u64], outcome: Result<Restarted, Refused>) -> u32
    ensures number { result ≡ (restart_answered outcome).number }
    ensures numbers { answer.new ≡ written (restart_numbers (restart_answered outcome)) answer.old }
{
    match outcome {
        Ok(r) => {
            let mut sink = Sink {
                out: answer,
                next: 0,
            };
            sink.put_all(&[0, r.line.count as u64, u64::from(r.back), r.going]);
            sink.put_words(&r.line.epochs);
            sink.put_words(&r.epochs);
            sink.put_words(&r.phases);
            0
        }
        Err(refused) => put_refused(answer, refused, &[0; 195]),
    }
}

// The greatest line without a lost message. Answer: place, count, back, the set of those that go back; then 64 words
// each: the line's numbers, the epochs at the cut, the phases at the restart or at the cut.
#[unsafe(no_mangle)]
pub extern "C" fn hallback_restart(table: &[u32], step: u64, set: u64, answer: &mut [u64]) -> u32
    ensures number { result ≡ (restart_answer table.now step set).number }
    ensures numbers { answer.new ≡ written (restart_numbers (restart_answer table.now step set)) answer.old }
    ensures means { RestartsIn table.now step set result answer.new }
{
    let outcome = restart::restart(table, step, set);
    put_restart(answer, outcome)
}

// What counting the messages of a line answers, and its number.
fn put_counted(answer: &mut [u64], outcome: Result<Counted, Refused>) -> u32
    ensures number { result ≡ (messages_answered outcome).number }
    ensures numbers { answer.new ≡ written (messages_numbers (messages_answered outcome)) answer.old }
{
    match outcome {
        Ok(c) => {
            put_numbers(
                answer,
                &[
                    0,
                    u64::from(c.orphans),
                    u64::from(c.kept),
                    u64::from(c.lost),
                ],
            );
            0
        }
        Err(refused) => put_refused(answer, refused, &[0, 0, 0]),
    }
}

// The messages of a line, listed in the run area. Answer: place, orphans, kept, lost.
#[unsafe(no_mangle)]
pub extern "C" fn hallback_messages(
    table: &[u32],
    step: u64,
    set: u64,
    line: &[u32],
    run: &mut [u32],
    answer: &mut [u64],
) -> u32
    ensures number { result ≡ (messages_answer table.now run.old step set (line_given line.now)).number }
    ensures words { run.new ≡ messages_area table.now run.old step set (line_given line.now) }
    ensures numbers { answer.new ≡ written (messages_numbers (messages_answer table.now run.old step set (line_given line.now))) answer.old }
    ensures means { ListsIn (run_of table.now step (line_given line.now)) result answer.new run.new }
{
    let outcome = messages::messages(table, step, set, line_from(line), run);
    put_counted(answer, outcome)
}

// What a replay answers, and its number.
fn put_replayed(answer: &mut [u64], outcome: Result<Replayed, Refused>) -> u32
    ensures number { result ≡ (replay_answered outcome).number }
    ensures numbers { answer.new ≡ written (replay_numbers (replay_answered outcome)) answer.old }
{
    match outcome {
        Ok(r) => {
            put_numbers(answer, &[0, r.steps as u64, u64::from(r.complete)]);
            0
        }
        Err(refused) => put_refused(answer, refused, &[0, 0]), // a replay: steps, and whether it is complete
    }
}

// An order carried out from a line, its delivery record in the run area. Answer: place, steps, 1 if complete.
#[unsafe(no_mangle)]
pub extern "C" fn hallback_replay(
    table: &[u32],
    step: u64,
    set: u64,
    line: &[u32],
    order: &[u16],
    run: &mut [u32],
    answer: &mut [u64],
) -> u32
    ensures number { result ≡ (replay_answer table.now run.old step set (line_given line.now) order.now).number }
    ensures words { run.new ≡ replay_area table.now run.old step set (line_given line.now) order.now }
    ensures numbers { answer.new ≡ written (replay_numbers (replay_answer table.now run.old step set (line_given line.now) order.now)) answer.old }
    ensures exact { ExactIn (run_of table.now step (line_given line.now)) result answer.new }
    ensures at_most { AtMostIn (run_of table.now step (line_given line.now)) answer.new }
    ensures carried { CarriesOutIn (run_of table.now step (line_given line.now)) order.now result answer.new }
    ensures equal { EqualIn table.now step (line_given line.now) result answer.new run.new }
    ensures recorded { Recorded table.now step (line_given line.now) order.now result run.new }
{
    let outcome = recovery::replay(table, step, set, line_from(line), order, run);
    put_replayed(answer, outcome)
}

// The same for the order that always takes the lowest allowed choice.
#[unsafe(no_mangle)]
pub extern "C" fn hallback_lowest(
    table: &[u32],
    step: u64,
    set: u64,
    line: &[u32],
    run: &mut [u32],
    answer: &mut [u64],
) -> u32
    ensures number { result ≡ (lowest_answer table.now run.old step set (line_given line.now)).number }
    ensures words { run.new ≡ lowest_area table.now run.old step set (line_given line.now) }
    ensures numbers { answer.new ≡ written (replay_numbers (lowest_answer table.now run.old step set (line_given line.now))) answer.old }
    ensures exact { LowestExactIn (run_of table.now step (line_given line.now)) result answer.new }
    ensures at_most { AtMostIn (run_of table.now step (line_given line.now)) answer.new }
    ensures carried { CarriesOutIn (run_of table.now step (line_given line.now)) (lowest_order (run_of table.now step (line_given line.now))) result answer.new }
    ensures completed { CompletedIn table.now (length run.old) step set (line_given line.now) result answer.new }
    ensures equal { LowestEqualIn table.now step (line_given line.now) result run.new }
    ensures recorded { Recorded table.now step (line_given line.now) (lowest_order (run_of table.now step (line_given line.now))) result run.new }
{
    let outcome = recovery::lowest(table, step, set, line_from(line), run);
    put_replayed(answer, outcome)
}

// The report on a text: how many bytes of it there are, or are room for.
#[unsafe(no_mangle)]
pub extern "C" fn hallback_report(text: &[u8], out: &mut [u8]) -> usize
    ensures length { result ≡ length (room (reported text.now) out.old) }
    ensures bytes { out.new ≡ written (reported text.now) out.old }
    ensures exact { StepsPrinted text.now }
    ensures few { length (reported text.now) ≤ report_bytes }
{
    let r = report::report(text, out);
    r.length
}
