// Sets of processes, as numbers of 64 bits whose bit z says that process z is a member: the first member, the set
// without it, the set with one more. Each contract gives the number, and then the members (`in_set`), so that nobody
// need unfold the number's definition. The definitions are in specs/Inner/Sets, laws on them in proofs/Sets. No public
// function has a `requires`. Assumes nothing.
#![tactic(auto)]

ghost use Rattle.std.specs.Prelude.{◌≡◌, ◌&&◌, ◌||◌, not, eqb, ℕ, ◌%◌};
ghost use Rattle.theory.specs.Line.{in_set};
ghost use Rattle.sets.specs.Inner.Sets.{first_in, rest_of, with_in, FirstOf};

pub const EVERYONE: u64 = 18446744073709551615;

// The first member of a set; 64 where it has none.
pub fn first(set: u64) -> usize
    ensures number { result ≡ first_in set }
    ensures members { FirstOf set result }
{
    u64::trailing_zeros(set) as usize
}

// A set without its first member.
pub fn rest(set: u64) -> u64
    ensures number { result ≡ rest_of set }
    ensures members { (y : ℕ) → in_set result y ≡ (in_set set y && not (eqb y (first_in set))) }
{
    if set == 0 {
        return 0;
    }
    set & (set - 1)
}

// A set with process z, which is taken modulo 64.
pub fn with(set: u64, z: usize) -> u64
    ensures number { result ≡ with_in set z }
    ensures members { (y : ℕ) → in_set result y ≡ (in_set set y || eqb y (z % 64)) }
{
    set | 1u64 << (z % 64)
}
