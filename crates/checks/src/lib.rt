// What gate programs share: the numbers of the rows of their cases, those of a refusal, and rows of results put
// together and printed. Each function says what it does by a definition, for every input; no public function has a
// `requires`. What reaches standard output no contract can say. Assumes what `libc` assumes.
#![tactic(auto)]

ghost use Rattle.std.specs.Prelude.{◌≡◌, ◌≤◌, length, get_or, take};
ghost use Rattle.std.specs.Option.{option_map_or};
ghost use Rattle.refusal.specs.Refusals as refusals;
ghost use Rattle.writer.specs.Inner.Sinks.{Takes};
ghost use Rattle.checks.specs.Inner.Filled.{piece, takes, filled, Fills};
ghost use Rattle.checks.specs.Inner.Rows.{Place, field_place, number_in_row};

use refusal::Refused;
use writer::Sink;

// The place of the first byte b at or after a place, or the end.
pub fn find(bytes: &[u8], from: usize, b: u8) -> usize
    ensures { Place b from bytes.now result }
{
    if from > bytes.len() {
        return bytes.len();
    }
    for i in from..bytes.len() {
        if bytes[i] == b {
            return i;
        }
    }
    bytes.len()
}

// Where field k of a row begins: fields are counted from 0, and a blank stands between two.
fn field(row: &[u8], k: usize) -> usize
    ensures { result ≡ field_place row.now k }
{
    let mut at = 0;
    for _ in 0..k {
        at = find(row, at, b' ') + 1;
    }
    at
}

// The number that field k of a row begins with, if there is one. None is above 2^64 - 2.
#[tactic(auto, unfolding(crate::specs::Inner::Rows::number_in_row))]
pub fn number(row: &[u8], k: usize) -> Option<u64>
    ensures { result ≡ number_in_row row.now k }
{
    Some(text::number(row, field(row, k), u64::MAX - 1)?.value)
}

// The number and the place of a refusal, 0 and 0 where nothing is refused.
pub fn number_and_place(refused: Option<Refused>) -> (u64, u64)
    ensures number { result.0 ≡ option_map_or (λ r. refusals.number_of_refusal r.refusal) refused 0 }
    ensures place { result.1 ≡ option_map_or (λ r. r.place) refused 0 }
{
    match refused {
        Some(r) => (u64::from(r.refusal.number()), r.place as u64),
        None => (0, 0),
    }
}

// Value k, or 0 past the last.
fn value(values: &[u64], k: usize) -> u64
    ensures { result ≡ get_or values.now k 0 }
{
    values.get(k).copied().unwrap_or(0)
}

// How many values a byte of a pattern takes.
#[tactic(auto, unfolding(crate::specs::Inner::Filled::takes))]
fn taken(b: u8) -> usize
    ensures { (result ≡ takes b) × (result ≤ 1) }
{
    usize::from(b == b'#')
}

// What a byte of a pattern stands for where v is the next value.
fn put_piece(sink: &mut Sink<'_, u8>, b: u8, v: u64)
    ensures { Takes (piece b v) sink.old sink.new }
{
    if b == b'#' {
        sink.put_number(v);
    } else {
        sink.put(b);
    }
}

// Puts a pattern with its values filled in at a place, and answers the place after it; a full buffer takes no more.
// (The gate programs have fixed buffers, since nothing here allocates.)
pub fn put(out: &mut [u8], at: usize, pattern: &[u8], values: &[u64]) -> usize
    ensures { Fills pattern.now values.now out.old at out.new result }
{
    let mut sink = Sink { out, next: at };
    let mut k = 0;
    for b in pattern {
        put_piece(&mut sink, *b, value(values, k));
        k += taken(*b);
    }
    sink.next
}

// Prints a pattern with its values filled in, its first 512 bytes, and answers how many bytes that is. (A pattern and
// no `print!`: that can fail, and what could not fail still can't.)
pub fn print(pattern: &[u8], values: &[u64]) -> usize
    ensures { result ≡ length (take 512 (filled pattern.now values.now 0)) }
{
    let mut out = [0u8; 512];
    let n = put(&mut out, 0, pattern, values);
    io::write_all(1, &out[..n]);
    n
}
