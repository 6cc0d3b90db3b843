// The engine's answers beside what brute force found: are they the same. Assumes what `libc` assumes.
#![tactic(auto)]

ghost use Rattle.std.specs.Prelude.{true, ◌≡◌, ◌≤◌};
ghost use Rattle.bruteforce.specs.Counts.{SmallRun};
ghost use Rattle.recovery.specs.Answers.{replay_answered};
ghost use Rattle.restart.specs.Restart.{restart_answered};

use bestline::Best;
use bruteforce::{Failure, STAYS};
use orders::Replayed;
use recovery_line::Line;
use refusal::Refused;
use restart::Restarted;

// Numbers of three processes as the engine has them: 64, of which the rest are 0.
fn wide(numbers: &[u32; 4]) -> [u32; 64] {
    let mut all = [0; 64];
    all[..4].copy_from_slice(numbers);
    all
}

// A line as the engine has it.
pub fn widened(count: u32, line: &[u32; 4]) -> Line
    ensures { result.count ≡ count }
{
    Line {
        epochs: wide(line),
        count: count as usize,
    }
}

// Are these the set of the processes that go back, and its size, of at most three processes.
fn same_going(count: u32, line: &[u32; 4], set: u64, back: u32) -> bool {
    let mut going = 0;
    for (z, number) in line[..3].iter().enumerate().take(count as usize) {
        if *number != STAYS {
            going |= 1 << z;
        }
    }
    set == going && back == going.count_ones()
}

// Is the engine's answer the best line, with its epochs at the cut and its phases. A refusal never is.
pub fn same_answer(count: u32, b: Best, answer: Result<Restarted, Refused>) -> bool
    ensures { result ≡ true → (restart_answered answer).number ≡ 0 }
{
    let Ok(r) = answer else {
        return false;
    };
    r.line.count == count as usize
        && r.line.epochs == wide(&b.line)
        && r.epochs == wide(&b.epochs)
        && r.phases == wide(&b.phases)
        && same_going(count, &b.line, r.going, r.back)
}

// Is a replay of the lowest order right: accepted and complete; from a line that loses nothing the record of the run
// without failure, after all steps; from any other line another record.
pub fn right_replay(
    f: Failure,
    line: &[u32; 4],
    answer: Result<Replayed, Refused>,
    same: bool,
) -> bool
    requires { SmallRun f }
    ensures { result ≡ true → (replay_answered answer).number ≡ 0 }
{
    let Ok(r) = answer else {
        return false;
    };
    if !r.complete {
        return false;
    }
    if bruteforce::loses(f, line) {
        return !same;
    }
    same && r.steps == bruteforce::steps(f, line) as usize
}
