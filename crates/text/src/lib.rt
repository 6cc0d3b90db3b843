// Reading text: the end of a line, fixed keys and decimal numbers. Each function says what it finds by a definition of
// specs/, for every text and place; only those for a quick look (`four`, `eight`, `short`, `long`) have a `requires`,
// that so many bytes are there. Assumes nothing.
#![tactic(auto)]

ghost use Rattle.std.specs.Prelude.{true, ◌&&◌, not, ◌≡◌, ◌↔◌, ◌+◌, ◌-◌, ◌≤◌, ◌<◌, eqb, length, drop, get_or, position, ◌==◌, IfSome};
ghost use Rattle.text.specs.Inner.Line.{line_end};
ghost use Rattle.text.specs.Inner.Blocks.{packed, marks, AnyLf, FirstLf};
ghost use Rattle.text.specs.Inner.Standing.{Written};
ghost use Rattle.text.specs.Number.{is_digit, pushed, digits_from, number_at};
ghost use Rattle.text.specs.Key.{starts_with, key_at};

// A number that was read and the place after it.
#[derive(Clone, Copy, Debug, PartialEq, Eq)]
pub struct Numeral {
    pub value: u64,
    pub end: usize,
}

// Four bytes from a place on as one number, the first of them lowest: the machine takes them at once. (By a place, as
// `line_end`, `byte`, `number` and `key` have it; theirs may lie past the end, and their contracts say what they find.)
pub fn four(text: &[u8], at: usize) -> u32
    requires { at + 4 ≤ length text.now }
    ensures { result ≡ packed 4 (drop at text.now) }
{
    text[at] as u32
        + 256 * (text[at + 1] as u32)
        + 65536 * (text[at + 2] as u32)
        + 16777216 * (text[at + 3] as u32)
}

// Eight bytes likewise.
pub fn eight(text: &[u8], at: usize) -> u64
    requires { at + 8 ≤ length text.now }
    ensures { result ≡ packed 8 (drop at text.now) }
{
    words::from_halves(four(text, at), four(text, at + 4))
}

// LF in each of eight bytes.
const LFS: u64 = 0x0a0a0a0a0a0a0a0a;

// The low seven bits of each of eight bytes.
const LOWS: u64 = 0x7f7f7f7f7f7f7f7f;

// The highest bit of each byte of a number that is LF, and no other bit. Where the low seven bits of a byte differ from
// LF's, adding 0x7f to the difference sets the highest; the sum is at most 0xfe, so that nothing leaves the byte.
fn lf_marks(w: u64) -> u64
    ensures { result ≡ marks 8 w }
{
    let differs = w ^ LFS;
    let carried = (differs & LOWS) + LOWS;
    !(carried | differs | LOWS)
}

// Whether one of the eight bytes of a number is LF.
fn has_lf(w: u64) -> bool
    ensures { (result ≡ true) ↔ AnyLf 8 w }
{
    lf_marks(w) != 0
}

// Which byte of a number that has LF is the first LF, counted from 0.
fn first_lf(w: u64) -> usize
    ensures { AnyLf 8 w → FirstLf 8 w result }
{
    u64::trailing_zeros(lf_marks(w)) as usize / 8
}

// The first LF, byte by byte.
fn lf_singly(text: &[u8]) -> Option<usize>
    ensures first { result ≡ position (λ b. b == 10) text.now }
    ensures within { IfSome result (λ k. k < length text.now) }
{
    text.iter().position(|b| *b == b'\n')
}

// The place of the first LF at or after a place: eight bytes together, and the last few singly. (This loop and that of
// `long` go on by what was read, and count no index.)
pub fn line_end(text: &[u8], from: usize) -> Option<usize>
    ensures { result ≡ line_end text.now from }
{
    let eights = text.len().saturating_sub(7);
    let mut at = from;
    while at < eights {
        let w = eight(text, at);
        if has_lf(w) {
            return Some(at + first_lf(w));
        }
        at += 8;
    }
    if at > text.len() {
        return None;
    }
    let found = lf_singly(&text[at..])?;
    Some(at + found)
}

// The byte at a place, or 256 past the end. (No Option, since docs/CLAIMS.md and an edit name the 256; so with
// `is_digit`, which is no digit of it.)
pub fn byte(text: &[u8], at: usize) -> u16
    ensures { result ≡ get_or text.now at 256 }
{
    if at < text.len() {
        u16::from(text[at])
    } else {
        256
    }
}

// Whether a byte is a decimal digit.
pub fn is_digit(b: u16) -> bool
    ensures { result ≡ is_digit b }
{
    48 <= b && b <= 57
}

// Ten times a value below this, and a byte, have room in 64 bits.
const ROOM: u64 = 1000000000000000000;

// The value v with a digit at its end, where it is at most the bound. (Where there is room the byte is added before 48 is
// taken away, which is less to do.)
#[tactic(auto, unfolding(crate::specs::Number::is_digit, crate::specs::Number::pushed))]
fn push(v: u64, b: u16, bound: u64) -> Option<u64>
    requires { is_digit b ≡ true }
    ensures { result ≡ pushed v b bound }
{
    if v < (bound / 10).min(ROOM) {
        return Some(v * 10 + u64::from(b) - 48);
    }
    let w = v.checked_mul(10)?.checked_add(u64::from(b) - 48)?;
    if w > bound { None } else { Some(w) }
}

// The number that the digits from a place on give, after others of a value.
fn digits(text: &[u8], from: usize, value: u64, bound: u64) -> Option<Numeral>
    requires { from ≤ length text.now }
    ensures { result ≡ digits_from bound value from (drop from text.now) }
{
    let mut v = value;
    for at in from..text.len() {
        let b = u16::from(text[at]);
        if !is_digit(b) {
            return Some(Numeral { value: v, end: at });
        }
        v = push(v, b, bound)?;
    }
    Some(Numeral {
        value: v,
        end: text.len(),
    })
}

// The decimal number at a place: without leading zeros, and at most the bound.
pub fn number(text: &[u8], at: usize, bound: u64) -> Option<Numeral>
    ensures { result ≡ number_at text.now at bound }
{
    let b = byte(text, at);
    if !is_digit(b) {
        return None;
    }
    if b != 48 {
        let first = push(0, b, bound)?;
        return digits(text, at + 1, first, bound);
    }
    let e = byte(text, at + 1);
    if is_digit(e) {
        return None;
    }
    Some(Numeral {
        value: 0,
        end: at + 1,
    })
}

// A number of one or two digits; none where no digit stands there, or a 0 before another. Here and in `long` what
// follows the digits is the caller's to look at.
pub fn short(text: &[u8], at: usize) -> Option<Numeral>
    requires { at + 2 ≤ length text.now }
    ensures { Written text.now at 99 2
        (is_digit (get_or text.now at 0) && not (eqb (get_or text.now at 0) 48 && is_digit (get_or text.now (at + 1) 0))) result }
{
    let first = u16::from(text[at]);
    if !is_digit(first) {
        return None;
    }
    let second = u16::from(text[at + 1]);
    if !is_digit(second) {
        return Some(Numeral {
            value: u64::from(first) - 48,
            end: at + 1,
        });
    }
    if first == 48 {
        return None;
    }
    Some(Numeral {
        value: 10 * u64::from(first) + u64::from(second) - 528,
        end: at + 2,
    })
}

// A number of up to 20 digits that 64 bits have room for; none where no digit stands there. The 20th may be too
// large: then it is left to the caller, behind the number of 19.
pub fn long(text: &[u8], at: usize) -> Option<Numeral>
    requires { at + 21 ≤ length text.now }
    ensures { Written text.now at 18446744073709551615 20 (is_digit (get_or text.now at 0)) result }
{
    let first = u16::from(text[at]);
    if !is_digit(first) {
        return None;
    }
    let mut v = u64::from(first) - 48;
    let mut i = at + 1;
    if v == 0 {
        return Some(Numeral { value: v, end: i });
    }
    while v < ROOM {
        let next = u16::from(text[i]);
        if !is_digit(next) {
            return Some(Numeral { value: v, end: i });
        }
        v = v * 10 + u64::from(next) - 48;
        i += 1;
    }
    let last = u16::from(text[i]);
    if !is_digit(last) {
        return Some(Numeral { value: v, end: i });
    }
    let Some(w) = push(v, last, u64::MAX) else {
        return Some(Numeral { value: v, end: i });
    };
    Some(Numeral {
        value: w,
        end: i + 1,
    })
}

// Whether the key's bytes stand at a place; past the end of the text only the empty key does.
pub fn key(text: &[u8], at: usize, key: &[u8]) -> bool
    ensures { result ≡ key_at text.now at key.now }
{
    if at > text.len() {
        return key.is_empty();
    }
    text[at..].starts_with(key)
}
