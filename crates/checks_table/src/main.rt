// What check 13 says of table areas, and the text of those that hold a trace, where it has at most 256 bytes. Standard
// input has a trace, which is read into an area, and after a byte `-` a row for each case, of which the rest is a
// remark. `word K W`: that area with its word K changed to W; `length N`: its first N words; `zero`: the zero area, and
// what a refused text leaves; `events N A B`, `saves N A B`: an area filled by hand up to the limits. Expected: the
// file `stdout`. Proved safe and ending; what is printed no contract can say.
#![tactic(auto)]

// Whether an area holds a trace, what writing it back answers, and its text.
fn print_answer(area: &[u32]) {
    io::write_all(
        1,
        if table::holds_trace(area) {
            b" holds=yes"
        } else {
            b" holds=no"
        },
    );
    let mut out = [0; 256];
    let answer = rendering::write(area, &mut out);
    let (number, place) = checks::number_and_place(answer.err());
    checks::print(b" write=# place=#\n", &[number, place]);
    if let Ok(length) = answer {
        io::write_all(1, &out[..length.min(256)]);
    }
}

// One word changed, the answer printed, and the word put back.
fn change(area: &mut [u32], k: usize, w: u32) {
    if k >= area.len() {
        return;
    }
    let was = area[k];
    area[k] = w;
    checks::print(
        b"word=# was=# now=#",
        &[k as u64, u64::from(was), u64::from(w)],
    );
    print_answer(area);
    area[k] = was;
}

fn print_length(area: &[u32], n: usize) {
    if let Some(first) = area.get(..n) {
        checks::print(b"words=#", &[n as u64]);
        print_answer(first);
    }
}

// The zero area, and what a refused text leaves.
fn print_zero() {
    let mut area = [0; 16400];
    io::write_all(1, b"zero area");
    print_answer(&area);
    let answer = reader::read(b"procs=1\n", &mut area);
    checks::print(b"refused=#", &[checks::number_and_place(answer.err()).0]);
    print_answer(&area);
}

// An area of two processes and n events, odd ones by one word and even ones by another, as far as the area goes.
fn print_filled(name: &[u8], n: u32, odd: u32, even: u32) {
    let mut area = [0; 16400];
    area[0] = 2;
    area[1] = n;
    for (i, word) in area[17..].iter_mut().enumerate().take(n as usize) {
        *word = if i % 2 == 0 { odd } else { even };
    }
    checks::print(name, &[u64::from(n)]);
    print_answer(&area);
}

// One row. A word is a field's number, of which the low 32 bits are looked at; all ones where there is none. (A letter
// stands for a case: an enum of the five would be no plainer than this match.)
fn case(area: &mut [u32], row: &[u8]) {
    let word = |k| (checks::number(row, k).unwrap_or(u64::MAX) % 4294967296) as u32;
    let a = word(1);
    let b = word(2);
    let c = word(3);
    match row.first() {
        Some(b'w') => change(area, a as usize, b),
        Some(b'l') => print_length(area, a as usize),
        Some(b'z') => print_zero(),
        Some(b'e') => print_filled(b"events=#", a, b, c),
        Some(b's') => print_filled(b"saves=#", a, b, c),
        _ => {}
    }
}

// The trace, and the rows after it, of which the byte `-` is the first: a row of no kind.
fn check(input: &[u8]) {
    let end = checks::find(input, 0, b'-');
    let mut area = [0; 16400];
    let answer = reader::read(&input[..end], &mut area);
    checks::print(b"read=#", &[checks::number_and_place(answer.err()).0]);
    print_answer(&area);
    for row in input[end..].split(|b| *b == b'\n') {
        case(&mut area, row);
    }
}

fn main() {
    let mut input = [0; 8192];
    let n = io::read_full(0, &mut input);
    check(&input[..n]);
}
