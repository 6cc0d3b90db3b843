// The end of a line, run and printed. A line `beside B length L:` is of the first L of 17 bytes, all of them B but for
// an LF, which stands at each of the 17 places in turn, and last at none; a line `lf I and J from:` is of 25 bytes 0x0b
// with LF at places I and J (25: at none), searched from each place in turn up to the one after the end. What follows
// is where `text::line_end` found the first LF, 99 for nowhere. The file `stdout` has what MANUAL 2.1 asks of each.
// Proved safe and ending; what is printed no contract can say. Assumes what `libc` assumes.
#![tactic(auto)]

// How long a text with one LF can be, and how long one with two is.
const SHORT: usize = 17;

const LONG: usize = 25;

// Puts an LF at a place, if the text has it.
fn put_lf(text: &mut [u8], at: usize) {
    if let Some(b) = text.get_mut(at) {
        *b = b'\n';
    }
}

// Where a search from a place finds the first LF.
fn print_end(text: &[u8], from: usize) {
    checks::print(b" #", &[text::line_end(text, from).unwrap_or(99) as u64]);
}

// So many bytes, with the LF at a place or cut off.
fn one_lf(beside: u8, length: usize, lf: usize) {
    let mut text = [beside; SHORT];
    put_lf(&mut text, lf);
    print_end(&text[..length.min(SHORT)], 0);
}

// So many bytes, with the LF at each place in turn.
fn places(beside: u8, length: usize) {
    checks::print(b"beside # length #:", &[u64::from(beside), length as u64]);
    for lf in 0..=SHORT {
        one_lf(beside, length, lf);
    }
    io::write_all(1, b"\n");
}

// Texts of 0 to 17 bytes.
fn lengths(beside: u8) {
    for length in 0..=SHORT {
        places(beside, length);
    }
}

// A text searched from each place.
fn searches(text: &[u8]) {
    for from in 0..=LONG + 1 {
        print_end(text, from);
    }
    io::write_all(1, b"\n");
}

// A text with an LF at each of two places.
fn two_lfs(first: usize, second: usize) {
    checks::print(b"lf # and # from:", &[first as u64, second as u64]);
    let mut text = [0x0b; LONG];
    put_lf(&mut text, first);
    put_lf(&mut text, second);
    searches(&text);
}

// Beside one LF: the eight bytes that differ from it in one bit; one less; CR; no bit, every bit; a letter. Of two LFs
// the first at each place, the second at each after it, and last at none.
fn main() {
    for beside in b"\x0b\x08\x0e\x02\x1a\x2a\x4a\x8a\x09\x0d\x00\xffa" {
        lengths(*beside);
    }
    for first in 0..LONG {
        for second in first + 1..=LONG {
            two_lfs(first, second);
        }
    }
}
