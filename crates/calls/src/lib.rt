// Calls of the library that rows of text name, carried out and printed: a trace, and a row for each call, of the name,
// the call, the step, the set, the line's numbers, the choices and a remark. Proved safe and ending; what is printed no
// contract can say. Assumes what `libc` assumes.
#![tactic(auto)]

ghost use Rattle.std.specs.Prelude.{◌+◌, ◌≤◌, length};
ghost use Rattle.io.specs.Counts.{IsPrefixLen};

use messages::Counted;
use orders::Replayed;
use recovery_line::Line;
use refusal::Refused;
use words::AREA_WORDS;

// What every run area holds before a call: words that the call leaves as they were are seen in what is printed.
const BEFORE: u32 = 7;

// The words before row 1 of each plane of a list of messages, and before the low and the high halves of the values of a
// record. (Written out, and not named from `listing` and `machine`: docs/LAYOUT.md is what is checked.)
const ROW_BASE: usize = 16;

const ROW_NUMBER_BASE: usize = 2065;

const ROW_PHASE_BASE: usize = 4114;

const LOW_VALUES: usize = 2049;

const HIGH_VALUES: usize = 4098;

// Where the failure of a call is, and the line that it goes back to.
#[derive(Clone, Copy)]
struct Call {
    step: u64,
    set: u64,
    line: Line,
}

// Is a record that of the run without failure. From the line of all 1 every process does its whole list again, and no
// message is lost: the record that any complete order leaves from there is that of the run without failure.
fn faultless(table: &[u32; AREA_WORDS], c: Call, run: &[u32; AREA_WORDS]) -> bool {
    let all = Line {
        epochs: [1u32; 64],
        count: c.line.count,
    };
    let mut whole = [0u32; AREA_WORDS];
    let _ = recovery::lowest(table, c.step, c.set, all, &mut whole);
    *run == whole
}

// The record in a run area: of each receive that took a message its event, the message's number and its value.
fn print_record(run: &[u32; AREA_WORDS]) {
    for e in 1..=2048 {
        let number = run[e];
        if number != 0 {
            let value = words::from_halves(run[LOW_VALUES + e], run[HIGH_VALUES + e]);
            checks::print(b" ev=# no=# val=#", &[e as u64, u64::from(number), value]);
        }
    }
}

// The answer to a replay, and the record that is left: is it that of the run without failure, and what it has.
fn print_replayed(answer: Result<Replayed, Refused>, same: bool, run: &[u32; AREA_WORDS]) {
    let (number, place) = checks::number_and_place(answer.err());
    let (steps, complete) = match answer {
        Ok(r) => (r.steps, r.complete),
        Err(_) => (0, false),
    };
    checks::print(
        b" number=# place=# steps=# complete=# same=#",
        &[
            number,
            place,
            steps as u64,
            u64::from(complete),
            u64::from(same),
        ],
    );
    print_record(run);
}

// Reads the choices of a row from a field on, and answers how many there are.
fn read_order(row: &[u8], from: usize, order: &mut [u16]) -> usize
    requires { from ≤ 68 }
    ensures { IsPrefixLen result order.new }
{
    for (i, choice) in order.iter_mut().enumerate() {
        let Some(v) = checks::number(row, from + i) else {
            return i;
        };
        *choice = (v % 65536) as u16;
    }
    order.len()
}

// An order of choices.
fn replay_order(table: &[u32; AREA_WORDS], c: Call, row: &[u8]) {
    let mut order = [0u16; 8];
    let n = read_order(row, 4 + c.line.count % 65, &mut order);
    let mut run = [BEFORE; AREA_WORDS];
    let r = recovery::replay(table, c.step, c.set, c.line, &order[..n], &mut run);
    print_replayed(r, faultless(table, c, &run), &run);
}

// The order of lowest choices.
fn replay_lowest(table: &[u32; AREA_WORDS], c: Call) {
    let mut run = [BEFORE; AREA_WORDS];
    let r = recovery::lowest(table, c.step, c.set, c.line, &mut run);
    print_replayed(r, faultless(table, c, &run), &run);
}

// The messages of a list after the first `before` of them, `count` in number.
fn print_messages(run: &[u32; AREA_WORDS], before: usize, count: usize)
    requires { before + count ≤ 2048 }
{
    for row in before + 1..before + count + 1 {
        let channel = run[ROW_BASE + row];
        checks::print(
            b" from=# to=# no=# phase=#",
            &[
                u64::from(channel % 64),
                u64::from(channel / 64 % 64),
                u64::from(run[ROW_NUMBER_BASE + row]),
                u64::from(run[ROW_PHASE_BASE + row]),
            ],
        );
    }
}

// How many messages of each class a line leaves, and the lost ones.
fn list_messages(table: &[u32; AREA_WORDS], c: Call) {
    let mut run = [BEFORE; AREA_WORDS];
    let answer = messages::messages(table, c.step, c.set, c.line, &mut run);
    let (number, place) = checks::number_and_place(answer.err());
    let m = match answer {
        Ok(m) => m,
        Err(_) => Counted {
            orphans: 0,
            kept: 0,
            lost: 0,
        },
    };
    checks::print(
        b" number=# place=# orphans=# kept=# lost=#",
        &[
            number,
            place,
            u64::from(m.orphans),
            u64::from(m.kept),
            u64::from(m.lost),
        ],
    );
    print_messages(&run, m.orphans as usize + m.kept as usize, m.lost as usize);
}

// The engine's line, of three processes.
fn find_line(table: &[u32; AREA_WORDS], c: Call) {
    let answer = restart::restart(table, c.step, c.set);
    let (number, place) = checks::number_and_place(answer.err());
    let [a, b, c] = match answer {
        Ok(r) => [r.line.epochs[0], r.line.epochs[1], r.line.epochs[2]],
        Err(_) => [0; 3],
    };
    checks::print(
        b" number=# place=# restart=# restart=# restart=#",
        &[number, place, u64::from(a), u64::from(b), u64::from(c)],
    );
}

// The number of a row's field, all ones where there is none.
fn number(row: &[u8], k: usize) -> u64 {
    checks::number(row, k).unwrap_or(u64::MAX)
}

// The line of a row, of so many processes.
fn read_line(row: &[u8], count: u32) -> Line {
    let count = count as usize;
    let mut epochs = [0; 64];
    for (z, epoch) in epochs.iter_mut().enumerate().take(count) {
        *epoch = (number(row, 4 + z) % 4294967296) as u32;
    }
    Line { epochs, count }
}

// A letter stands for a call: an enum of the four would be no plainer than this match.
fn run_call(table: &[u32; AREA_WORDS], kind: u8, c: Call, row: &[u8]) {
    match kind {
        b'o' => replay_order(table, c, row),
        b'l' => replay_lowest(table, c),
        b'm' => list_messages(table, c),
        b'e' => find_line(table, c),
        _ => {}
    }
}

// One row: its name, and what the call answers.
fn run_row(table: &[u32; AREA_WORDS], row: &[u8]) {
    let end = checks::find(row, 0, b' ');
    if end + 1 >= row.len() {
        return;
    }
    let c = Call {
        step: number(row, 2),
        set: number(row, 3),
        line: read_line(row, table[0]),
    };
    io::write_all(1, &row[..end]);
    run_call(table, row[end + 1], c, row);
    io::write_all(1, b"\n");
}

// The rows of a trace.
fn run_rows(table: &[u32; AREA_WORDS], rows: &[u8]) {
    for row in rows.split(|b| *b == b'\n') {
        run_row(table, row);
    }
}

fn run_trace(text: &[u8], rows: &[u8]) {
    let mut table = [0u32; AREA_WORDS];
    let _ = reader::read(text, &mut table);
    run_rows(&table, rows);
}

// Every trace with its rows: the `-` after the trace is a row without a call. Answers the place after the last: all of
// the input was gone through. The loop goes on by what was read, as no `for` does.
pub fn run_traces(input: &[u8]) -> usize
    ensures { length input.now ≤ result }
{
    let mut at: usize = 2;
    while at < input.len() {
        let mid = checks::find(input, at, b'-');
        let end = checks::find(input, mid + 1, b'-');
        run_trace(&input[at..mid], &input[mid..end]);
        at = end + 2;
    }
    at
}
