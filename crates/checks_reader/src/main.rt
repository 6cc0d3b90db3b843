// Sizes and refusals of the reader, run and printed: a line for each case, with the answer's number and place, how many
// of the area's first 16,384 words are not 0, and how many later words changed, or else the words themselves; where a
// text is accepted, also its trace written back and read again. The file `stdout` has what MANUAL 2 and 6 ask of each.
// Proved safe and ending; what is printed no contract can say. Assumes what `libc` assumes.
#![tactic(auto)]

ghost use Rattle.std.specs.Prelude.{◌≤◌, length};
ghost use Rattle.io.specs.Counts.{IsPrefixLen};

use refusal::Refused;
use words::AREA_WORDS;

// What every area holds before a reading.
const BEFORE: u32 = 7;

// How many words of an area, from a place to another, are not v.
fn others(area: &[u32], from: usize, to: usize, v: u32) -> u64 {
    let end = to.min(area.len());
    let mut count = 0;
    for w in &area[from.min(end)..end] {
        count += u64::from(*w != v);
    }
    count
}

fn print_answer(name: &[u8], answer: Result<(), Refused>) {
    io::write_all(1, name);
    let (number, place) = checks::number_and_place(answer.err());
    checks::print(b" # #", &[number, place]);
}

// Reads a text into an area of 16,400 words.
fn case(name: &[u8], text: &[u8]) {
    let mut area = [BEFORE; 16400];
    print_answer(name, reader::read(text, &mut area));
    let left = others(&area, 0, AREA_WORDS, 0);
    let past = others(&area, AREA_WORDS, 16400, BEFORE);
    checks::print(b" # #\n", &[left, past]);
    print_back(text);
}

// Reads a text into an area of 16,383 words, one too few: the count is of words that changed.
fn small(name: &[u8], text: &[u8]) {
    let mut area = [BEFORE; 16383];
    print_answer(name, reader::read(text, &mut area));
    checks::print(b" #\n", &[others(&area, 0, 16383, BEFORE)]);
}

// A text read, and where it is accepted written back and read again.
fn print_back(text: &[u8]) {
    let mut area = [BEFORE; AREA_WORDS];
    if reader::read(text, &mut area).is_ok() {
        let mut out = [roundtrip::BEFORE; roundtrip::ROOM];
        roundtrip::print_trip(&area, text, &mut out);
    }
}

// The words of an area from a place on that are not 0.
fn print_words(area: &[u32], from: usize) {
    for (i, w) in area.iter().enumerate().skip(from) {
        if *w != 0 {
            checks::print(b"word # #\n", &[i as u64, u64::from(*w)]);
        }
    }
}

// Reads a text into an area of 16,384 words, no more, and prints those from a place on.
fn table(name: &[u8], text: &[u8], from: usize) {
    let mut area = [BEFORE; AREA_WORDS];
    print_answer(name, reader::read(text, &mut area));
    io::write_all(1, b"\n");
    print_words(&area, from);
    print_back(text);
}

// Texts stand in buffers of fixed size, since nothing of this repository allocates (rule of the project).
//
// Puts a piece so many times at the end of a text, and answers where it ends then. No text here has a byte `#`.
fn repeat(text: &mut [u8], from: usize, piece: &[u8], times: usize) -> usize
    requires { from ≤ length text.old }
    ensures { IsPrefixLen result text.new }
{
    let mut at = from;
    for _ in 0..times {
        at = checks::put(text, at, piece, &[]);
    }
    at
}

// Reads the first lines and then those of the case as one text.
fn joined(name: &[u8], first: &[u8], lines: &[u8]) {
    let mut text = [0; 65536];
    let at = repeat(&mut text, 0, first, 1);
    let n = repeat(&mut text, at, lines, 1);
    case(name, &text[..n]);
}

// A case for each row `NAME:LINES;`: the first lines and then its own.
fn rows(first: &[u8], list: &[u8]) {
    for row in list.split(|b| *b == b';') {
        if let Some(c) = row.iter().position(|b| *b == b':') {
            joined(&row[..c], first, &row[c + 1..]);
        }
    }
}

// 1 and 2 at line 1: the process count, and what stands there instead.
fn first_lines() {
    rows(
        b"",
        b"procs-0:procs=0\n;\
        procs-1:procs=1\n;\
        procs-2:procs=2\n;\
        procs-64:procs=64\n;\
        procs-65:procs=65\n;\
        procs-largest:procs=4294967295\n;\
        procs-over:procs=4294967296\n;\
        procs-64-bits:procs=18446744073709551615\n;\
        procs-wraps-to-0:procs=18446744073709551616\n;\
        procs-wraps-to-2:procs=18446744073709551618\n;\
        procs-leading-zero:procs=02\n;\
        procs-no-number:procs=\n;\
        procs-out-of-range-then-malformed:procs=65\nx\n;\
        empty:;\
        no-lf:procs=2;\
        no-lf-out-of-range:procs=65;\
        lf-only:\n;\
        blank-first:\nprocs=2\n;\
        event-first:ev=save at=0\n;\
        failure-first:fail=0 set=1\n;\
        cr-first:procs=2\r\n;\
        nul-first:procs=2\0\n;\
        trailing-space-first:procs=2 \n;\
        leading-space-first: procs=2\n;\
        capital-first:Procs=2\n;\
        two-counts-in-a-line:procs=2 procs=2\n;",
    );
}

// 1 at a later line: no form that is due there.
fn malformed_lines() {
    rows(
        b"procs=2\nev=save at=0\n",
        b"blank:\n;\
        blank-between:\nev=save at=0\n;\
        cr:ev=save at=0\r\n;\
        nul:ev=save at=0\0\n;\
        nul-only:\0\n;\
        trailing-space:ev=save at=0 \n;\
        leading-space: ev=save at=0\n;\
        double-space:ev=send at=0  to=1 val=5\n;\
        tab:ev=send at=0\tto=1 val=5\n;\
        keys-swapped:ev=send to=1 at=0 val=5\n;\
        key-missing:ev=send at=0 to=1\n;\
        key-too-many:ev=save at=0 val=5\n;\
        number-missing:ev=save at=\n;\
        sign:ev=save at=-1\n;\
        number-then-letter:ev=save at=0x\n;\
        high-byte:ev=save at=\xb0\n;\
        8a-for-lf:ev=save at=0\x8aev=save at=0\n;\
        0b-for-lf:ev=save at=0\x0bev=save at=0\n;\
        09-for-lf:ev=save at=0\x09ev=save at=0\n;\
        00-for-lf:ev=save at=0\x00ev=save at=0\n;\
        ff-for-lf:ev=save at=0\xffev=save at=0\n;\
        unknown-kind:ev=stop at=0\n;\
        done-without-at:ev=done\n;\
        done-with-a-value:ev=done at=0 val=5\n;\
        done-no-lf:ev=done at=0;\
        capital:EV=save at=0\n;\
        count-again:procs=2\n;\
        failure:fail=1 set=1\n;\
        failure-over:fail=1 set=18446744073709551616\n;\
        no-lf-event:ev=save at=0;\
        no-lf-event-out-of-range:ev=save at=2;\
        no-lf-after-event:ev=save at=0\nx;\
        malformed-before-out-of-range:x\nev=save at=2\n;",
    );
}

fn leading_zeros() {
    rows(
        b"procs=2\n",
        b"zero-send-at:ev=send at=00 to=1 val=5\n;\
        zero-send-to:ev=send at=0 to=01 val=5\n;\
        zero-send-val:ev=send at=0 to=1 val=05\n;\
        zero-send-val-zero:ev=send at=0 to=1 val=00\n;\
        zero-recv-at:ev=recv at=01 from=0\n;\
        zero-recv-from:ev=recv at=1 from=00\n;\
        zero-save-at:ev=save at=00\n;\
        zero-done-at:ev=done at=01\n;\
        zero-itself:ev=send at=0 to=1 val=0\n;",
    );
}

// The largest number of each key of an event, and what is too large: the first, the largest that 64 bits can hold, and
// those that are small where no more than 64 bits are kept. Of a value only what is too large: `values` has the others.
fn largest_numbers() {
    rows(
        b"procs=2\n",
        b"send-at-largest:ev=send at=4294967295 to=1 val=5\n;\
        send-at-over:ev=send at=4294967296 to=1 val=5\n;\
        send-at-64-bits:ev=send at=18446744073709551615 to=1 val=5\n;\
        send-at-wraps-to-0:ev=send at=18446744073709551616 to=1 val=5\n;\
        send-to-largest:ev=send at=0 to=4294967295 val=5\n;\
        send-to-over:ev=send at=0 to=4294967296 val=5\n;\
        send-to-64-bits:ev=send at=0 to=18446744073709551615 val=5\n;\
        send-to-wraps-to-0:ev=send at=0 to=18446744073709551616 val=5\n;\
        send-val-over:ev=send at=0 to=1 val=18446744073709551616\n;\
        send-val-over-by-its-tens:ev=send at=0 to=1 val=18446744073709551620\n;\
        send-val-wraps-to-0:ev=send at=0 to=1 val=36893488147419103232\n;\
        send-val-wraps-to-7:ev=send at=0 to=1 val=18446744073709551623\n;\
        send-val-20-nines:ev=send at=0 to=1 val=99999999999999999999\n;\
        send-val-21-digits:ev=send at=0 to=1 val=100000000000000000000\n;\
        send-val-21-digits-wrap-to-0:ev=send at=0 to=1 val=184467440737095516160\n;\
        send-val-39-digits-wrap-to-0:ev=send at=0 to=1 val=340282366920938463463374607431768211456\n;\
        recv-at-largest:ev=recv at=4294967295 from=0\n;\
        recv-at-over:ev=recv at=4294967296 from=0\n;\
        recv-at-64-bits:ev=recv at=18446744073709551615 from=0\n;\
        recv-at-wraps-to-0:ev=recv at=18446744073709551616 from=0\n;\
        recv-from-largest:ev=recv at=1 from=4294967295\n;\
        recv-from-over:ev=recv at=1 from=4294967296\n;\
        recv-from-64-bits:ev=recv at=1 from=18446744073709551615\n;\
        recv-from-wraps-to-0:ev=recv at=1 from=18446744073709551616\n;\
        save-at-largest:ev=save at=4294967295\n;\
        save-at-over:ev=save at=4294967296\n;\
        save-at-64-bits:ev=save at=18446744073709551615\n;\
        save-at-wraps-to-0:ev=save at=18446744073709551616\n;\
        done-at-largest:ev=done at=4294967295\n;\
        done-at-over:ev=done at=4294967296\n;\
        done-at-64-bits:ev=done at=18446744073709551615\n;\
        done-at-wraps-to-0:ev=done at=18446744073709551616\n;",
    );
}

// Reads a send whose value has these digits, and prints its words from those of the values on: the low half is word
// 2066, the high half word 4115.
fn halves(name: &[u8], digits: &[u8]) {
    let mut text = [0; 128];
    let at = repeat(&mut text, 0, b"procs=2\nev=send at=0 to=1 val=", 1);
    let end = repeat(&mut text, at, digits, 1);
    let n = repeat(&mut text, end, b"\n", 1);
    table(name, &text[..n], 2065);
}

// Values up to the largest: where another bit or another digit is first needed, and halves that differ.
fn values() {
    halves(b"send-val-32-bits", b"4294967295");
    halves(b"send-val-33-bits", b"4294967296");
    halves(b"send-val-7-in-the-low-half", b"4294967303");
    halves(b"send-val-64-bits", b"9223372036854775808");
    halves(b"send-val-20-digits", b"10000000000000000000");
    halves(b"send-val-halves-differ", b"12345678901234567890");
    halves(b"send-val-high-half-only", b"18446744069414584320");
    halves(b"send-val-largest", b"18446744073709551615");
}

// 3, 4, 5, 15, which comes first, and that the first faulty line decides.
fn faults() {
    rows(
        b"procs=3\nev=send at=0 to=1 val=5\n",
        b"send-at-3:ev=send at=3 to=0 val=5\n;\
        send-to-3:ev=send at=0 to=3 val=5\n;\
        recv-at-3:ev=recv at=3 from=0\n;\
        recv-from-3:ev=recv at=0 from=3\n;\
        save-at-3:ev=save at=3\n;\
        save-at-2:ev=save at=2\n;\
        send-to-itself:ev=send at=2 to=2 val=5\n;\
        recv-from-itself:ev=recv at=2 from=2\n;\
        send-3-to-itself:ev=send at=3 to=3 val=5\n;\
        recv-3-from-itself:ev=recv at=3 from=3\n;\
        recv-fit:ev=recv at=1 from=0\n;\
        recv-twice:ev=recv at=1 from=0\nev=recv at=1 from=0\n;\
        recv-other-way:ev=recv at=0 from=1\n;\
        recv-other-channel:ev=recv at=2 from=0\n;\
        send-again-recv-twice:ev=send at=0 to=1 val=5\nev=recv at=1 from=0\nev=recv at=1 from=0\n;\
        fault-4-before-line-of-3:ev=send at=2 to=2 val=5\nev=save at=3\n;\
        fault-5-before-line-of-1:ev=recv at=2 from=0\nx\n;\
        fault-3-before-line-without-lf:ev=save at=3\nx;\
        done-at-3:ev=done at=3\n;\
        done-without-save:ev=done at=2\n;\
        done-of-0:ev=save at=0\nev=done at=0\n;\
        done-of-another:ev=save at=1\nev=done at=2\n;\
        done-twice:ev=save at=1\nev=done at=1\nev=done at=1\n;\
        two-saves-two-dones:ev=save at=2\nev=save at=2\nev=done at=2\nev=done at=2\n;\
        fault-15-before-line-of-1:ev=done at=0\nx\n;",
    );
}

// 5 and 15 at line 2, and the largest process.
fn first_events() {
    rows(
        b"",
        b"recv-first:procs=2\nev=recv at=1 from=0\n;\
        done-first:procs=2\nev=done at=0\n;\
        save-done-done:procs=2\nev=save at=0\nev=done at=0\nev=done at=0\n;\
        procs-64-at-63:procs=64\nev=save at=63\n;\
        procs-64-at-64:procs=64\nev=save at=64\n;\
        procs-64-done-at-63:procs=64\nev=save at=63\nev=done at=63\n;",
    );
}

// 6: the 30th and the 31st checkpoint of a process, and then another's; the same with dones, and a done too many.
fn saves() {
    let mut text = [0; 512];
    let at = repeat(&mut text, 0, b"procs=2\n", 1);
    let n = repeat(&mut text, at, b"ev=save at=1\n", 30);
    rows(
        &text[..n],
        b"saves-30:;saves-31:ev=save at=1\n;saves-30-and-1:ev=save at=0\n;",
    );
    let mut done = [0; 1024];
    let to = repeat(&mut done, 0, b"procs=2\n", 1);
    let m = repeat(&mut done, to, b"ev=save at=1\nev=done at=1\n", 30);
    rows(
        &done[..m],
        b"saves-30-done:;saves-31-done:ev=save at=1\n;dones-31:ev=done at=1\n;",
    );
}

// 7: the 2,048th and the 2,049th event, and what else stands at line 2,050.
fn events() {
    let mut text = [0; 65536];
    let at = repeat(&mut text, 0, b"procs=2\n", 1);
    let m = repeat(&mut text, at, b"ev=send at=0 to=1 val=0\n", 2047);
    let n = repeat(&mut text, m, b"ev=send at=1 to=0 val=4294967305\n", 1);
    table(b"events-2048", &text[..n], 2060);
    rows(
        &text[..n],
        b"events-2049:ev=send at=0 to=1 val=0\n;\
        events-2049-out-of-range:ev=save at=9\n;\
        events-2049-done:ev=done at=0\n;\
        line-2050-malformed:ev=send\n;\
        line-2050-no-lf:ev=save at=0;\
        line-2050-failure:fail=1 set=1\n;",
    );
}

// The largest text that there is.
fn largest_text() {
    let mut text = [0; 92169];
    let at = repeat(&mut text, 0, b"procs=64\n", 1);
    let n = repeat(
        &mut text,
        at,
        b"ev=send at=63 to=62 val=18446744073709551615\n",
        2048,
    );
    case(b"largest-text", &text[..n]);
}

// 12, before anything else, and the words of trace H (MANUAL 10.1), with a done after each checkpoint: that of process
// 1 is word 20, and that of process 0, word 24, is 0.
fn areas() {
    small(b"small-fit", b"procs=2\n");
    small(b"small-malformed", b"x");
    table(
        b"trace-h",
        b"procs=3\nev=send at=0 to=1 val=5\nev=recv at=1 from=0\nev=save at=1\nev=done at=1\n\
        ev=send at=1 to=2 val=7\nev=recv at=2 from=1\nev=save at=0\nev=done at=0\n\
        ev=send at=0 to=1 val=9\nev=recv at=1 from=0\nev=send at=1 to=2 val=4\n",
        0,
    );
}

fn main() {
    io::write_all(1, b"case number place words changed\n");
    first_lines();
    malformed_lines();
    leading_zeros();
    largest_numbers();
    values();
    faults();
    first_events();
    saves();
    events();
    largest_text();
    areas();
}
