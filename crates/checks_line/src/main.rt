// Recovery lines by brute force. Every sequence of at most 5 events of two processes, and of at most 4 events of three,
// is written as a trace text and read. Where it is fit, then for every cut and every failed set the engine's answer is
// compared with the greatest of all lines that name finished epochs and lose no message; and orders are replayed from
// lines: the record that is left must be that of the run without failure exactly if the line loses none. Among them are
// checkpoints unfinished at the cut, of failed processes and of others, several of one process, messages sent between a
// checkpoint and its done, and dones after the cut. Sequences of 6 and 7 events of two processes are many: they are
// compared where they are fit, at their last cut, and not replayed. They are there because it takes 7 until a process
// that is lowered below its message's epoch, to one that is finished, lowers another, and until a logged message raises
// a phase that an answer shows. What is fit, what a line may hold, what it loses, and which phases and steps there are
// is worked out by crate `bruteforce` from the few events alone; none of the engine's tables or definitions is used.
// Printed: how much was compared, and how much of it differs; the file `stdout` has 0. Proved safe and ending. Assumes
// what `libc` assumes.
#![tactic(auto)]

ghost use Rattle.std.specs.Prelude.{◌≤◌};
ghost use Rattle.bruteforce.specs.Counts.{SmallRun};

use answers::{right_replay, same_answer, widened};
use bestline::Best;
use bruteforce::Failure;
use sequences::{put_trace, sequence};
use words::AREA_WORDS;

// How many bytes hold the text of every trace here.
const TEXT_BYTES: usize = 192;

// A trace of few events.
#[derive(Clone, Copy)]
struct Trace {
    count: u32,
    events: [u32; 7],
    size: u32,
    ghost few_processes: { count ≤ 3 },
    ghost few_events: { size ≤ 7 },
}

impl Trace {
    // Whether traces of so many events are many: more than 5 of two processes, more than 4 of three.
    fn is_long(&self) -> bool {
        self.count + self.size > 7
    }

    // The set of all processes, which is also the last of the sets.
    fn everyone(&self) -> u64
        ensures { result ≤ 7 }
    {
        if self.count == 2 { 3 } else { 7 }
    }

    // The first cut that is looked at: the cuts before the last are those of shorter traces.
    fn first_cut(&self) -> u32
        ensures { result ≤ self.now.size }
    {
        if self.is_long() { self.size } else { 0 }
    }

    // Its text, and how many bytes that has. (A buffer of fixed size and a length beside: nothing here allocates.)
    fn text(&self) -> ([u8; TEXT_BYTES], usize)
        ensures { result.1 ≤ TEXT_BYTES }
    {
        let mut text = [0; TEXT_BYTES];
        let n = put_trace(&mut text, self.count, &self.events, self.size);
        (text, n)
    }

    // The failure of the processes of a set right after event `cut`.
    fn failure(&self, cut: u32, set: u64) -> Failure
        requires { cut ≤ 7 }
        ensures { SmallRun result }
    {
        Failure {
            count: self.count,
            events: self.events,
            size: self.size,
            cut,
            set,
        }
    }
}

// What is counted: traces that are fit, sequences that the reader is to refuse, failures whose answer was compared,
// lines judged for them, orders replayed, and comparisons in which the engine and brute force differ. None reaches
// 2^64.
#[derive(Clone, Copy, Default)]
struct Tally {
    traces: u64,
    refused: u64,
    failures: u64,
    lines: u64,
    replays: u64,
    differ: u64,
}

impl Tally {
    // A comparison: what is not right is counted.
    fn expect(&mut self, right: bool) {
        self.differ = self.differ.wrapping_add(u64::from(!right));
    }
}

// The table area of a trace, the record of its run without failure, a run area, and what was counted.
#[derive(Drop)]
struct Bench {
    table: [u32; AREA_WORDS],
    faultless: [u32; AREA_WORDS],
    run: [u32; AREA_WORDS],
    tally: Tally,
}

impl Bench {
    // The engine's answer beside the best line, which must itself be one that is permitted and loses nothing.
    fn compare(&mut self, f: Failure) -> Best
        requires { SmallRun f }
    {
        let b = bestline::best_line(f);
        self.tally.lines = self.tally.lines.wrapping_add(u64::from(b.judged));
        self.tally.expect(b.reached);
        let r = restart::restart(&self.table, u64::from(f.cut), f.set);
        self.tally.failures = self.tally.failures.wrapping_add(1);
        self.tally.expect(same_answer(f.count, b, r));
        b
    }

    // Replays the lowest order from a line. No record has a first word other than 0: an area that the replay leaves as
    // it was is told by it.
    fn replay(&mut self, f: Failure, line: &[u32; 4])
        requires { SmallRun f }
    {
        self.run[0] = 7;
        let from = widened(f.count, line);
        let r = recovery::lowest(&self.table, u64::from(f.cut), f.set, from, &mut self.run);
        self.tally.replays = self.tally.replays.wrapping_add(1);
        self.tally
            .expect(right_replay(f, line, r, self.faultless == self.run));
    }

    // From every line of two processes.
    fn replay_all(&mut self, f: Failure)
        requires { SmallRun f }
    {
        let mut line = [0; 4];
        for x in 0..bestline::codes(f.count) {
            if bestline::may_replay(f, x, &mut line) {
                self.replay(f, &line);
            }
        }
    }

    // Three processes have too many lines: from the best line, from the highest where it loses a message, and from the
    // lowest where all failed.
    fn replay_some(&mut self, f: Failure, best: &[u32; 4], all: u64)
        requires { SmallRun f }
    {
        self.replay(f, best);
        let mut line = [0; 4];
        bestline::highest(f, &mut line);
        if bruteforce::loses(f, &line) {
            self.replay(f, &line);
        }
        if f.set == all {
            self.replay(f, &[1, 1, 1, 0]);
        }
    }

    // One failure.
    fn check_failure(&mut self, trace: Trace, cut: u32, set: u64)
        requires { cut ≤ 7 }
    {
        let f = trace.failure(cut, set);
        let b = self.compare(f);
        if trace.is_long() {
            return;
        }
        if f.count == 2 {
            self.replay_all(f);
        } else {
            self.replay_some(f, &b.line, trace.everyone());
        }
    }

    // Whether writing the area that a trace was read into gives its text.
    fn comes_back(&self, trace: Trace) -> bool {
        let (text, n) = trace.text();
        let mut out = [roundtrip::BEFORE; TEXT_BYTES];
        roundtrip::comes_back(&self.table, &text[..n], &mut out)
    }

    // A trace that is fit: its text is to come back; and every failed set at its cuts.
    fn check_trace(&mut self, trace: Trace) {
        self.tally.traces = self.tally.traces.wrapping_add(1);
        let back = self.comes_back(trace);
        self.tally.expect(back);
        self.faultless.fill(0);
        bruteforce::record(&trace.events, trace.size, &mut self.faultless);
        self.run.fill(0);
        for cut in trace.first_cut()..trace.size + 1 {
            for set in 1..trace.everyone() + 1 {
                self.check_failure(trace, cut, set);
            }
        }
    }

    // The reader is to accept a trace, or to refuse it, with 5 or 15 at the line of the first event that is unfit. Of
    // long ones, those that are unfit are passed over.
    fn check(&mut self, trace: Trace) {
        let verdict = bruteforce::verdict(&trace.events, trace.size);
        if verdict.is_some() && trace.is_long() {
            return;
        }
        let (text, n) = trace.text();
        let answer = reader::read(&text[..n], &mut self.table);
        let (number, place) = checks::number_and_place(answer.err());
        match verdict {
            Some(refusal) => {
                self.tally.refused = self.tally.refused.wrapping_add(1);
                self.tally.expect(number == u64::from(refusal.fault as u32));
                self.tally.expect(place == u64::from(refusal.place));
            }
            None => {
                self.tally.expect(number == 0);
                self.tally.expect(place == 0);
                self.check_trace(trace);
            }
        }
    }
}

// The sequences of events with numbers below `end`, and a line with what was counted.
fn check_processes(count: u32, end: u32)
    requires { (2 ≤ count) × (count ≤ 3) }
{
    let mut bench = Bench {
        table: [0; AREA_WORDS],
        faultless: [0; AREA_WORDS],
        run: [0; AREA_WORDS],
        tally: Tally::default(),
    };
    for x in 0..end {
        let mut events = [0; 7];
        let size = sequence(count, x, &mut events);
        bench.check(Trace {
            count,
            events,
            size,
        });
    }
    let tally = bench.tally;
    checks::print(
        b"procs=# traces=# refused=# failures=# lines=# replays=# differ=#\n",
        &[
            u64::from(count),
            tally.traces,
            tally.refused,
            tally.failures,
            tally.lines,
            tally.replays,
            tally.differ,
        ],
    );
}

// Two processes can do 8 things: 1 + 8 + .. + 8^7 sequences; three can do 18: 1 + 18 + .. + 18^4.
fn main() {
    check_processes(2, 2396745);
    check_processes(3, 111151);
}
