// A recovery line of a trace (the requirements call it a restart line; MANUAL 4.2): the epoch that each process
// restarts in, or that it stays; and the set of those that go back. specs/Given says how a line stands in words. No
// public function has a `requires`. Assumes nothing.
#![tactic(auto)]

ghost use Rattle.std.specs.Prelude.{◌≡◌, ◌&&◌, not, ltb, ℕ, min, ◌≤◌, length, take, set};
ghost use Rattle.std.specs.Int.Count.{ones};
ghost use Rattle.theory.specs.Line.{in_set, stays_in};
ghost use Rattle.recovery_line.specs.Given.{line_in, numbers_of, back_of, back_ones};

// A recovery line: for each process the epoch that it restarts in, or STAYS, and how many processes there are.
#[derive(Clone, Copy, Debug, PartialEq, Eq)]
pub struct Line {
    pub epochs: [u32; 64],
    pub count: usize,
}

// A process that stays as it was at the cut.
pub const STAYS: u32 = 32;

// The set of the processes not at 32 among the first `count`, from the highest down.
fn set_of(numbers: &[u32], count: usize) -> u64
    requires { (count ≤ length numbers.now) × (count ≤ 64) }
    ensures { result ≡ back_of (take count numbers.now) }
{
    let mut set = 0;
    for i in (0..count).rev() {
        set = 2 * set + u64::from(numbers[i] != STAYS);
    }
    set
}

// The set of the processes that go back: a line has 64 places, whatever its count.
pub fn back_set(line: Line) -> u64
    ensures set { result ≡ back_of (numbers_of line) }
    ensures bits { (z : ℕ) → in_set result z ≡ (ltb z (min line.count 64) && not (stays_in (line_in line) z)) }
{
    set_of(&line.epochs, line.count.min(64))
}

// How many go back: the ones of the set.
pub fn back(line: Line) -> u32
    ensures size { result ≡ ones (back_of (numbers_of line)) }
    ensures number { result ≡ length (back_ones (numbers_of line)) }
{
    back_set(line).count_ones()
}
