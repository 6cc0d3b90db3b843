// What one line of text says: a process count, a send, a receive, a checkpoint, the end of one or a failure, each with
// its numbers, or none of these. specs/Line says it for every line, specs/Render the text of an event and of a failure;
// proofs/OneLine that a line says it exactly if it is that text. An event's line in its usual form is read without a
// search for its LF. No public function has a `requires`. Assumes nothing.
#![tactic(auto)]

ghost use Rattle.std.specs.Prelude.{ℕ, List, ◌≡◌, ◌+◌, ◌≤◌, eqb, length, unwrap_or, option_map};
ghost use Rattle.text.specs.Inner.Standing.{Stands};
ghost use Rattle.text.specs.Key.{field_at};
ghost use Rattle.lines.specs.declared.Line.TheVariants.{Malformed};
ghost use Rattle.lines.specs.Inner.Placing.{next_line, Known, ProcessEnds};
ghost use Rattle.lines.specs.Line.{k_send, k_recv, when_end, line_said, procs_said, send_said, recv_said, process_said, fail_said};

use text::Numeral;

// What a line says: a process count, a send, a receive, a checkpoint, the end of one or a failure, each with its
// numbers; or none of these. (One case stands for each line, the malformed one too: so say the requirements.)
#[derive(Clone, Copy, Debug, PartialEq, Eq)]
pub enum Line {
    Procs(u64),
    Send(u64, u64, u64),
    Recv(u64, u64),
    Save(u64),
    Done(u64),
    Failure(u64, u64),
    Malformed,
}

// The largest number that each key can hold: of a process, a step or a count; of a value; of a set.
const MOST: u64 = 4294967295;

const MOST_VALUE: u64 = 18446744073709551615;

const MOST_SET: u64 = 18446744073709551615;

// A key at a place and the number behind it.
fn number_behind(line: &[u8], at: usize, key: &[u8], bound: u64) -> Option<Numeral>
    ensures { result ≡ field_at line.now at key.now bound }
{
    if !text::key(line, at, key) {
        return None;
    }
    text::number(line, at + key.len(), bound)
}

// What was read, where the line ends at a place.
fn when_end(line: &[u8], at: usize, said: Line) -> Option<Line>
    ensures { unwrap_or result Malformed ≡ when_end (eqb at (length line.now)) said }
{
    if at == line.len() { Some(said) } else { None }
}

#[tactic(auto, unfolding(crate::specs::Line::procs_said))]
pub fn procs_line(line: &[u8]) -> Line
    ensures { result ≡ procs_said line.now }
{
    let Some(procs) = text::number(line, 6, MOST) else {
        return Line::Malformed;
    };
    when_end(line, procs.end, Line::Procs(procs.value)).unwrap_or(Line::Malformed)
}

#[tactic(auto, unfolding(crate::specs::Line::send_said))]
fn send_line(line: &[u8]) -> Option<Line>
    ensures { unwrap_or result Malformed ≡ send_said line.now }
{
    let at = text::number(line, 11, MOST)?;
    let to = number_behind(line, at.end, b" to=", MOST)?;
    let value = number_behind(line, to.end, b" val=", MOST_VALUE)?;
    when_end(line, value.end, Line::Send(at.value, to.value, value.value))
}

#[tactic(auto, unfolding(crate::specs::Line::recv_said))]
fn recv_line(line: &[u8]) -> Option<Line>
    ensures { unwrap_or result Malformed ≡ recv_said line.now }
{
    let at = text::number(line, 11, MOST)?;
    let from = number_behind(line, at.end, b" from=", MOST)?;
    when_end(line, from.end, Line::Recv(at.value, from.value))
}

// The process of a line that has one only, behind a key of 11 bytes.
#[tactic(auto, unfolding(crate::specs::Line::process_said))]
fn process_line(line: &[u8]) -> Option<u64>
    ensures { (key : List ℕ) (says : ℕ → Line) → length key ≡ 11 → unwrap_or (option_map says result) Malformed ≡ process_said key says line.now }
{
    let at = text::number(line, 11, MOST)?;
    if at.end == line.len() {
        Some(at.value)
    } else {
        None
    }
}

#[tactic(auto, unfolding(crate::specs::Line::fail_said))]
fn fail_line(line: &[u8]) -> Option<Line>
    ensures { unwrap_or result Malformed ≡ fail_said line.now }
{
    let step = text::number(line, 5, MOST)?;
    let set = number_behind(line, step.end, b" set=", MOST_SET)?;
    when_end(line, set.end, Line::Failure(step.value, set.value))
}

// What a line says, by the key at its start; none where it says nothing.
#[tactic(auto, unfolding(crate::specs::Line::line_said))]
fn read_line(line: &[u8]) -> Option<Line>
    ensures { unwrap_or result Malformed ≡ line_said line.now }
{
    if text::key(line, 0, b"ev=send at=") {
        return send_line(line);
    }
    if text::key(line, 0, b"ev=recv at=") {
        return recv_line(line);
    }
    if text::key(line, 0, b"ev=save at=") {
        return Some(Line::Save(process_line(line)?));
    }
    if text::key(line, 0, b"ev=done at=") {
        return Some(Line::Done(process_line(line)?));
    }
    if text::key(line, 0, b"procs=") {
        return Some(procs_line(line));
    }
    if text::key(line, 0, b"fail=") {
        return fail_line(line);
    }
    None
}

// So many bytes are enough for every event line that is read by a quick look.
const QUICK: usize = 48;

// A quick look at an event's line behind its first key, without knowing where it ends. Here and below None is no
// verdict: the line may be any. (Beside send_line and recv_line, since a look that needs no LF takes a third less.)
fn quick_send(text: &[u8], at: usize) -> Option<(Line, usize)>
    requires { (at + 48 ≤ length text.now) × Stands text.now at k_send (at + 11) }
    ensures { Known text.now at result }
{
    let process = text::short(text, at + 11)?;
    if !text[process.end..].starts_with(b" to=") {
        return None;
    }
    let to = text::short(text, process.end + 4)?;
    if !text[to.end..].starts_with(b" val=") {
        return None;
    }
    let value = text::long(text, to.end + 5)?;
    if text[value.end] != b'\n' {
        return None;
    }
    Some((
        Line::Send(process.value, to.value, value.value),
        value.end + 1,
    ))
}

fn quick_recv(text: &[u8], at: usize) -> Option<(Line, usize)>
    requires { (at + 48 ≤ length text.now) × Stands text.now at k_recv (at + 11) }
    ensures { Known text.now at result }
{
    let process = text::short(text, at + 11)?;
    if !text[process.end..].starts_with(b" from=") {
        return None;
    }
    let from = text::short(text, process.end + 6)?;
    if text[from.end] != b'\n' {
        return None;
    }
    Some((Line::Recv(process.value, from.value), from.end + 1))
}

// The process that alone stands behind the first key.
fn quick_process(text: &[u8], at: usize) -> Option<Numeral>
    requires { at + 48 ≤ length text.now }
    ensures { ProcessEnds text.now (at + 11) result }
{
    let process = text::short(text, at + 11)?;
    if text[process.end] != b'\n' {
        return None;
    }
    Some(process)
}

// Parts of the first keys as numbers, the first byte lowest: " at="; "ev=send ", "ev=recv ", "ev=save ", "ev=done ". (By
// starts_with a line of a save takes 106 instructions where this takes 40.)
const AT: u32 = 0x3d746120;

const SEND: u64 = 0x20646e65733d7665;

const RECV: u64 = 0x20766365723d7665;

const SAVE: u64 = 0x20657661733d7665;

const DONE: u64 = 0x20656e6f643d7665;

// A quick look at an event's line, its first key in two numbers, which have the blank in common.
fn quick_line(text: &[u8], at: usize) -> Option<(Line, usize)>
    ensures { Known text.now at result }
{
    if at > text.len() {
        return None;
    }
    if text.len() - at < QUICK {
        return None;
    }
    if text::four(text, at + 7) != AT {
        return None;
    }
    let key = text::eight(text, at);
    if key == SEND {
        return quick_send(text, at);
    }
    if key == RECV {
        return quick_recv(text, at);
    }
    if key == SAVE {
        let process = quick_process(text, at)?;
        return Some((Line::Save(process.value), process.end + 1));
    }
    if key == DONE {
        let process = quick_process(text, at)?;
        return Some((Line::Done(process.value), process.end + 1));
    }
    None
}

// The line at a place, its LF searched for first.
#[tactic(auto, unfolding(crate::specs::Inner::Placing::next_line))]
fn searched_line(text: &[u8], at: usize) -> Option<(Line, usize)>
    ensures { result ≡ next_line text.now at }
{
    let end = text::line_end(text, at)?;
    let line = read_line(&text[at..end]).unwrap_or(Line::Malformed);
    Some((line, end + 1))
}

// The line at a place and where the next one begins, or that it lacks its LF: by a quick look, or where that does not
// tell, by a search for its LF.
pub fn next_line(text: &[u8], at: usize) -> Option<(Line, usize)>
    ensures { result ≡ next_line text.now at }
{
    if let Some(found) = quick_line(text, at) {
        return Some(found);
    }
    searched_line(text, at)
}
