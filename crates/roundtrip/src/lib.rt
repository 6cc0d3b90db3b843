// A trace written back by `rendering::write`, compared with the text that it was read from, and read again; and what
// came of it printed. Proved safe and ending; what is printed no contract can say. Assumes what `libc` assumes.
#![tactic(auto)]

ghost use Rattle.std.specs.Prelude.{◌≡◌, length};
ghost use Rattle.rendering.specs.Write.{write_answered, write_answer, write_buffer};
ghost use Rattle.roundtrip.specs.Trip.{comes_back};

use refusal::Refused;
use words::AREA_WORDS;

// What every byte and every word holds before a call: those that the call leaves as they were are seen.
pub const BEFORE: u8 = 7;

// How many bytes hold every text.
pub const ROOM: usize = rendering::TEXT_BYTES;

// How many of the first n bytes of a buffer are not those of a text.
fn differing(out: &[u8], n: usize, text: &[u8]) -> u64 {
    let mut count = 0;
    for i in 0..n {
        count += u64::from(text::byte(out, i) != text::byte(text, i));
    }
    count
}

// How many bytes of a buffer, from a place on, are not as they were.
fn changed(out: &[u8], from: usize) -> u64 {
    let mut count = 0;
    for b in &out[from.min(out.len())..] {
        count += u64::from(*b != BEFORE);
    }
    count
}

// How many bytes of a text were written: none where writing is refused.
fn length_of(answer: Result<usize, Refused>) -> usize
    ensures { result ≡ (write_answered answer).length }
{
    answer.unwrap_or(0)
}

// Writes into a buffer and prints how many bytes it has, the answer, how many of the bytes written are not the text's,
// and how many of the others changed. Answers the length that was answered.
fn print_write(table: &[u32; AREA_WORDS], text: &[u8], out: &mut [u8]) -> usize
    ensures answer { result ≡ (write_answer table.now (length out.old)).length }
    ensures buffer { out.new ≡ write_buffer table.now out.old }
{
    let answer = rendering::write(table, out);
    let length = length_of(answer);
    let (number, place) = checks::number_and_place(answer.err());
    checks::print(
        b" room=# number=# place=# length=# differ=# changed=#",
        &[
            out.len() as u64,
            number,
            place,
            length as u64,
            differing(out, length, text),
            changed(out, length),
        ],
    );
    length
}

// Writes into a buffer of so many bytes.
fn print_room(table: &[u32; AREA_WORDS], text: &[u8], room: usize) {
    let mut out = [BEFORE; ROOM];
    let n = room.min(out.len());
    print_write(table, text, &mut out[..n]);
}

// Reads the first n bytes of a buffer and tells whether they are accepted and leave the area given.
fn again(table: &[u32; AREA_WORDS], out: &[u8], n: usize) -> bool {
    let mut area = [u32::from(BEFORE); AREA_WORDS];
    let answer = reader::read(&out[..n.min(out.len())], &mut area);
    answer.is_ok() && *table == area
}

// The trace of an area written back into a lent buffer, and read again; and written into buffers of just its length, of
// a byte fewer and of a byte more. The text may have a failure line after what is written. Answers its length.
pub fn print_trip(table: &[u32; AREA_WORDS], text: &[u8], out: &mut [u8]) -> usize
    ensures answer { result ≡ (write_answer table.now (length out.old)).length }
    ensures buffer { out.new ≡ write_buffer table.now out.old }
{
    io::write_all(1, b"back");
    let n = print_write(table, text, out);
    checks::print(b" again=#", &[u64::from(again(table, out, n))]);
    print_room(table, text, n);
    if n > 0 {
        print_room(table, text, n - 1);
    }
    if n < ROOM {
        print_room(table, text, n + 1);
    }
    io::write_all(1, b"\n");
    n
}

// Whether writing the trace of an area into a lent buffer gives just this text.
pub fn comes_back(table: &[u32; AREA_WORDS], text: &[u8], out: &mut [u8]) -> bool
    ensures answer { result ≡ comes_back table.now text.now out.old }
    ensures buffer { out.new ≡ write_buffer table.now out.old }
{
    let length = length_of(rendering::write(table, out));
    length == text.len() && text::key(out, 0, text)
}
