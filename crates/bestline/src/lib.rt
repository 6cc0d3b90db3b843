// Every line of two or three processes, and the best of those that lose nothing, by trying them all. It names nothing
// of the engine. Assumes nothing.
#![tactic(auto)]

ghost use Rattle.std.specs.Prelude.{◌≡◌, ◌+◌, ◌≤◌, ◌<◌};
ghost use Rattle.bruteforce.specs.Counts.{SmallRun, spare};

use bruteforce::{Failure, Kind, STAYS, epoch_by, loses, phases_at};

// The best line of a failure: the largest number of each process in the lines that lose nothing; the epochs at the cut,
// and the phases that the processes go on from; how many lines were judged for it; and whether the best is itself one
// of those that are permitted and lose nothing, and nowhere below the floor.
#[derive(Clone, Copy)]
pub struct Best {
    pub line: [u32; 4],
    pub epochs: [u32; 4],
    pub phases: [u32; 4],
    pub judged: u32,
    pub reached: bool,
}

// The epochs of the processes at the cut, counted by their saves, or by their dones: the latest that are finished. No
// process has place 3 of a line, which stays as it is here and below.
#[tactic(auto, using(bruteforce::proofs::Counts::spare_kept))]
fn epochs_at(f: Failure, kind: Kind, epochs: &mut [u32; 4])
    requires { SmallRun f }
    ensures { spare epochs.new ≡ spare epochs.old }
{
    for z in 0..f.count {
        epochs[z as usize] = epoch_by(kind as u32, &f.events, f.cut, z);
    }
}

// "M a 64-bit number in decimal whose bit z says that zone z failed."
fn failed(set: u64, z: u32) -> bool
    requires { z < 64 }
{
    (set >> z) % 2 == 1
}

// The line with number x: the digit 0 is STAYS, any other an epoch. A finished epoch after the first takes two events,
// so that no trace here has one above 4.
#[tactic(auto, using(bruteforce::proofs::Counts::spare_kept))]
fn spell(count: u32, x: u32, line: &mut [u32; 4])
    requires { count ≤ 3 }
    ensures { spare line.new ≡ spare line.old }
{
    let mut rest = x;
    for z in 0..count as usize {
        line[z] = match rest % 5 {
            0 => STAYS,
            epoch => epoch,
        };
        rest /= 5;
    }
}

// "Restart lines may name finished epochs only, epoch 1 being always finished, or 32." "Failed zones may not stay."
fn may_hold(finished: u32, failed: bool, n: u32) -> bool {
    if n == STAYS {
        !failed
    } else {
        0 < n && n <= finished
    }
}

fn permitted(f: Failure, finished: &[u32; 4], line: &[u32; 4]) -> bool
    requires { f.count ≤ 3 }
{
    for z in 0..f.count {
        if !may_hold(finished[z as usize], failed(f.set, z), line[z as usize]) {
            return false;
        }
    }
    true
}

// How many numbers stand for lines of two or three processes. Like `Trace::everyone` of checks_line in shape alone: one
// function of both would be no plainer.
pub fn codes(count: u32) -> u32
    ensures { result ≤ 125 }
{
    if count == 2 { 25 } else { 125 }
}

// The larger of two lines, process by process.
fn raise(best: &mut [u32; 4], line: &[u32; 4]) {
    for (b, n) in best.iter_mut().zip(line) {
        *b = (*b).max(*n);
    }
}

// One line: where it is permitted it is judged, and where it loses nothing the best is raised to it. Answers whether it
// was judged.
fn try_line(f: Failure, finished: &[u32; 4], line: &[u32; 4], best: &mut [u32; 4]) -> bool
    requires { SmallRun f }
{
    let judged = permitted(f, finished, line);
    if judged && !loses(f, line) {
        raise(best, line);
    }
    judged
}

// Every line of so many processes, and how many were judged.
fn try_lines(f: Failure, finished: &[u32; 4], best: &mut [u32; 4]) -> u32
    requires { SmallRun f }
    ensures { result ≤ 125 }
{
    let mut line = [0; 4];
    let mut judged = 0;
    for x in 0..codes(f.count) {
        spell(f.count, x, &mut line);
        if try_line(f, finished, &line, best) {
            judged += 1;
        }
    }
    judged
}

// Is a line permitted and does it lose nothing.
fn holds(f: Failure, finished: &[u32; 4], line: &[u32; 4]) -> bool
    requires { SmallRun f }
{
    permitted(f, finished, line) && !loses(f, line)
}

// What a process has to do with the floor: its latest finished epoch, if it failed or has an unfinished save.
fn bound(epoch: u32, finished: u32, failed: bool) -> u32 {
    if failed || finished < epoch {
        finished
    } else {
        STAYS
    }
}

// "The floor becomes the smallest, over the failed zones and those with an unfinished save, of the latest finished
// epoch at the cut."
fn floor(f: Failure, epochs: &[u32; 4], finished: &[u32; 4]) -> u32
    requires { f.count ≤ 3 }
{
    let mut least = STAYS;
    for z in 0..f.count {
        let own = bound(epochs[z as usize], finished[z as usize], failed(f.set, z));
        least = least.min(own);
    }
    least
}

// The smallest number of a line.
fn lowest(count: u32, line: &[u32; 4]) -> u32
    requires { count ≤ 3 }
{
    line[..count as usize]
        .iter()
        .fold(STAYS, |least, n| least.min(*n))
}

// The best line of a failure, with all that `Best` tells of it.
pub fn best_line(f: Failure) -> Best
    requires { SmallRun f }
    ensures { result.judged ≤ 125 }
{
    let mut epochs = [0; 4];
    epochs_at(f, Kind::Save, &mut epochs);
    let mut finished = [0; 4];
    epochs_at(f, Kind::Done, &mut finished);
    let mut line = [0; 4];
    let judged = try_lines(f, &finished, &mut line);
    let mut phases = [0; 4];
    phases_at(f, &line, &mut phases);
    let above = lowest(f.count, &line) >= floor(f, &epochs, &finished);
    Best {
        line,
        epochs,
        phases,
        judged,
        reached: above && holds(f, &finished, &line),
    }
}

// Spells the line with number x, and says whether it is permitted.
pub fn may_replay(f: Failure, x: u32, line: &mut [u32; 4]) -> bool
    requires { SmallRun f }
    ensures { spare line.new ≡ spare line.old }
{
    let mut finished = [0; 4];
    epochs_at(f, Kind::Done, &mut finished);
    spell(f.count, x, line);
    permitted(f, &finished, line)
}

// The highest line that is permitted: failed processes go back as little as they can, the others stay.
#[tactic(auto, using(bruteforce::proofs::Counts::spare_kept))]
pub fn highest(f: Failure, line: &mut [u32; 4])
    requires { SmallRun f }
    ensures { spare line.new ≡ spare line.old }
{
    epochs_at(f, Kind::Done, line);
    for z in 0..f.count {
        if !failed(f.set, z) {
            line[z as usize] = STAYS;
        }
    }
}
