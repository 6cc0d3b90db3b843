// The refusals of every call, as MANUAL 6.2 has them: a variant for each cause, with the number that C sees. `trace`
// and `orders` have refusals of their own; the crates above make one of these of them. Assumes nothing.
#![tactic(auto)]

ghost use Rattle.std.specs.Prelude.{◌≡◌};
ghost use Rattle.refusal.specs.Refusals.{number_of_refusal};
ghost use Rattle.refusal.specs.Inner.Checks.{at_no_place};
ghost use Rattle.trace.specs.Inner.Tally as unfit;

use trace::Unfit;

// Why a call is refused. The discriminants are the numbers of MANUAL 6.2.
#[derive(Clone, Copy, Debug, PartialEq, Eq)]
pub enum Refusal {
    // The line is not of a form that is due at its place, lacks its LF, or is missing; or a number in it is above the
    // largest that its key can hold; or, of the program only, the input is too long.
    Malformed = 1,
    // The count of processes is below 2 or above 64.
    ProcessCount = 2,
    // A process of the line is N or more.
    NoProcess = 3,
    // A process sends to itself or receives from itself.
    Itself = 4,
    // A receive with nothing in transit on its channel.
    NothingInTransit = 5,
    // A 31st save of a process.
    TooManySaves = 6,
    // A 2,049th event.
    TooManyEvents = 7,
    // The step of the failure is beyond the last event.
    Step = 8,
    // The set of the failure is empty or names a process that is N or more.
    Set = 9,
    // The recovery line has not exactly N numbers, or one is not permitted.
    Line = 10,
    // A choice is not allowed where it comes.
    Choice = 11,
    // A table area or a run area has fewer than 16,384 words.
    ShortArea = 12,
    // The first 16,384 words of the table area are not what reading some accepted trace leaves.
    NoTrace = 13,
    // The byte buffer is shorter than the text.
    ShortBuffer = 14,
    // A `done` of a process that has no unfinished save.
    NothingToFinish = 15,
}

impl Refusal {
    // The number of MANUAL 6.2.
    pub fn number(self) -> u32
        ensures { result ≡ number_of_refusal self }
    {
        self as u32
    }

    // This refusal, of a line of the text or a choice of the order.
    pub fn at(self, place: usize) -> Refused
        ensures { result ≡ record { refusal = self; place = place } }
    {
        Refused {
            refusal: self,
            place,
        }
    }
}

// A refusal and its place: a line of the text, a choice of the order, or 0 for none (MANUAL 6.2).
#[derive(Clone, Copy, Debug, PartialEq, Eq)]
pub struct Refused {
    pub refusal: Refusal,
    pub place: usize,
}

impl From<Refusal> for Refused {
    ghost from_gives = { λ r e. e ≡ at_no_place r };

    fn from(refusal: Refusal) -> Refused {
        refusal.at(0)
    }
}

impl From<Unfit> for Refusal {
    ghost from_gives = { λ u r. number_of_refusal r ≡ unfit.number_of u };

    fn from(unfit: Unfit) -> Refusal {
        match unfit {
            Unfit::NoProcess => Refusal::NoProcess,
            Unfit::Itself => Refusal::Itself,
            Unfit::NothingInTransit => Refusal::NothingInTransit,
            Unfit::TooManySaves => Refusal::TooManySaves,
            Unfit::NothingToFinish => Refusal::NothingToFinish,
        }
    }
}
