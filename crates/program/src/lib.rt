// What the program does between reading its input and writing its output: the limit of 65,536 bytes, the report and the
// status. The buffers have their lengths from here. Assumes nothing.
#![tactic(auto)]

ghost use Rattle.std.specs.Prelude.{◌≡◌, List, ℕ, ◌≤◌, length, take};
ghost use Rattle.writer.specs.Buffer.{written};
ghost use Rattle.report.specs.Report.{report_bytes};
ghost use Rattle.program.specs.Program.{ReadFrom, printed, status_of, StepsShown};

use refusal::Refusal;

// "The program takes at most 65,536 bytes"; it reads a byte more, so that a longer input is seen to be longer.
const TEXT_MOST: usize = 65536;

pub const READ_BYTES: usize = TEXT_MOST + 1;

// A buffer of so many bytes holds all that the program prints.
pub const REPORT_BYTES: usize = 262144;

// How many bytes there are to write, and the status: 0 recovered, 1 refused. (A number and no enum: what may not
// change, `respond`'s clause `status`.)
#[derive(Clone, Copy)]
pub struct Outcome {
    pub length: usize,
    pub status: u8,
}

// What the program prints for an input of which it has read `count` bytes: as many as the buffer has, or all. The input
// itself no contract can name: what holds, holds of each of which these are the first bytes.
pub fn respond(read: &[u8; READ_BYTES], count: usize, out: &mut [u8; REPORT_BYTES]) -> Outcome
    ensures bytes { (input : List ℕ) → ReadFrom input read.now count → take result.length out.new ≡ printed input }
    ensures status { (input : List ℕ) → ReadFrom input read.now count → result.status ≡ status_of input }
    ensures length { (input : List ℕ) → ReadFrom input read.now count → result.length ≡ length (printed input) }
    ensures buffer { (input : List ℕ) → ReadFrom input read.now count → out.new ≡ written (printed input) out.old }
    ensures exact { (input : List ℕ) → ReadFrom input read.now count → StepsShown input }
    ensures few { (input : List ℕ) → ReadFrom input read.now count → length (printed input) ≤ report_bytes }
    ensures within { (result.length ≤ length out.new) × (result.length ≡ length (take result.length out.new)) }
{
    let text: &[u8] = read;
    if count > TEXT_MOST {
        return Outcome {
            length: printing::put_refusal(out, Refusal::Malformed.number(), 0),
            status: 1,
        };
    }
    let r = report::report(&text[..count], out);
    Outcome {
        length: r.length,
        status: u8::from(r.refused),
    }
}
