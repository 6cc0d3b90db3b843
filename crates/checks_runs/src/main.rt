// Recoveries run from texts, and printed. Standard input has two parts, with a byte `~` between them. The first has
// traces with their failure lines, each ended by a byte `-`, which no fit text has. For each, the report, which is what
// the program prints, and a line `-`. They are, in this order: trace H (MANUAL 10.1; R1) and the other runs of the
// requirements that have a failure line (R4, R5, R7 to R10, R11 with both sets, R12); the run D1, whose orphan has its
// sender's phase and not its receiver's; D2, D3, D4 and D6 to D9, of which each tells one plausible mistake; V1 to V3,
// whose values take more than 32 bits; all these with a done after each checkpoint. Then U1 to U6, with checkpoints
// that are unfinished at the cut: of the process that failed, and nothing else (U1); of a sender, which goes back to
// its latest finished epoch and not to the send's (U2), and so sends back another (U3); the newer of two (U4); finished
// after the cut (U5), and before it, with a message sent between (U6). Then H, L and S without a done, as they were
// before there was one; two processes and 64; 30 checkpoints with their dones and 31 (6), and 30 without; then the
// refusals 1, 2, 3, 4, 5, 15, 8 and 9, wherever each can come. 7 takes 2,049 events: checks_reader has it. After them
// the program's own limit, with its status, and that the report has none. The second has the runs that have a line or
// an order of choices, through the library: a trace, and a row for each call (crate `calls`); U7 is H without a done.
// Every trace of the first part is also written back and read again (crate `roundtrip`); those of the second are among
// them. The file `stdout` was worked out from the requirements by a model that has nothing of the engine. Proved safe
// and ending; what is printed no contract can say. Assumes what `libc` assumes.
#![tactic(auto)]

use words::AREA_WORDS;

// The trace of a text written back, which is all of the text but its failure line; where the text is refused, the zeros
// that are left are no trace.
fn print_back(text: &[u8]) {
    let mut table = [0u32; AREA_WORDS];
    let _ = reader::read_failure(text, &mut table);
    let mut out = [roundtrip::BEFORE; roundtrip::ROOM];
    roundtrip::print_trip(&table, text, &mut out);
}

// The report on a text, its trace written back, and a line that ends it.
fn print_report(text: &[u8]) {
    let mut out = [0u8; program::REPORT_BYTES];
    let r = report::report(text, &mut out);
    let n = r.length.min(out.len());
    io::write_all(1, &out[..n]);
    print_back(text);
    io::write_all(1, b"-\n");
}

// A report on every text. The `-` and the LF after it belong to none, so that a text may lack its last LF. The
// loop goes on by what was read, as no `for` does.
fn print_reports(input: &[u8]) {
    let mut at: usize = 0;
    while at < input.len() {
        let end = checks::find(input, at, b'-');
        print_report(&input[at..end]);
        at = end + 2;
    }
}

// What the program prints where it has read so many zeros, and its status.
fn print_zeros(count: usize) {
    let read = [0u8; program::READ_BYTES];
    let mut out = [0u8; program::REPORT_BYTES];
    let r = program::respond(&read, count, &mut out);
    io::write_all(1, &out[..r.length]);
    checks::print(b"status=#\n-\n", &[u64::from(r.status)]);
}

// The program's own limit: of 65,537 bytes nothing is read, and of 65,536 the first line is. The library's report has
// none.
fn print_limits() {
    print_zeros(65537);
    print_zeros(65536);
    let text = [0u8; 65537];
    print_report(&text);
}

fn run_all(input: &[u8]) {
    let end = checks::find(input, 0, b'~');
    print_reports(&input[..end]);
    print_limits();
    calls::run_traces(&input[end..]);
}

fn main() {
    let mut input = [0u8; 16384];
    let n = io::read_full(0, &mut input);
    run_all(&input[..n]);
}
