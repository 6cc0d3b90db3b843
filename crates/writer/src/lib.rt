// Writing into a lent buffer, item after item: bytes, decimal numbers, and keys with their numbers; or numbers into a
// slice of them. A full buffer takes no more (specs/Buffer), and no place of one is refused. Assumes nothing.
#![tactic(auto)]

ghost use Rattle.std.specs.Prelude.{◌≡◌, [], ◌∷◌, ◌++◌, ◌+◌, ◌/◌, ◌%◌, ◌<◌, ◌≤◌, length, drop};
ghost use Rattle.text.specs.Number.{decimal};
ghost use Rattle.writer.specs.Inner.Sinks.{Takes};

// A lent buffer, and the place that the next item goes to: any place, also one past the buffer. The methods are put
// into their callers, so that the compiler knows the lengths of keys and keeps both fields in registers: as calls,
// writing a trace takes 1.5 times the instructions.
#[derive(Drop)]
pub struct Sink<'a, T> {
    pub out: &'a mut [T],
    pub next: usize,
}

impl<'a, T: Copy> Sink<'a, T> {
    #[inline(always)]
    pub fn put(&mut self, item: T)
        ensures { Takes (item ∷ []) self.old self.new }
    {
        if self.next < self.out.len() {
            self.out[self.next] = item;
            self.next += 1;
        }
    }

    // A full buffer is left as it is; where all items have room, one test serves for all of them.
    #[inline(always)]
    pub fn put_all(&mut self, items: &[T])
        ensures { Takes items.now self.old self.new }
    {
        if self.next >= self.out.len() {
            return;
        }
        let room = self.out.len() - self.next;
        if items.len() <= room {
            self.out[self.next..self.next + items.len()].copy_from_slice(items);
            self.next += items.len();
        } else {
            self.out[self.next..].copy_from_slice(&items[..room]);
            self.next += room;
        }
    }
}

impl<'a> Sink<'a, u64> {
    // Words, each as a number of 64 bits; one test of the room serves for all of them. (Beside `put_all`, since one
    // method for both would have to say by the law of a `From` what each word becomes.)
    pub fn put_words(&mut self, words: &[u32])
        ensures { Takes words.now self.old self.new }
    {
        if self.next >= self.out.len() {
            return;
        }
        let count = words.len().min(self.out.len() - self.next);
        for k in 0..count {
            self.out[self.next + k] = u64::from(words[k]);
        }
        self.next += count;
    }
}

impl<'a> Sink<'a, u8> {
    // The digit of a number below 10.
    #[inline(always)]
    fn put_digit(&mut self, n: u64)
        requires { n < 10 }
        ensures { Takes ((48 + n) ∷ []) self.old self.new }
    {
        self.put((48 + n) as u8);
    }

    // The last two digits of a number, a 0 in front where it has but one.
    #[inline(always)]
    fn put_two(&mut self, n: u64)
        ensures { Takes ((48 + n / 10 % 10) ∷ (48 + n % 10) ∷ []) self.old self.new }
    {
        self.put_digit(n / 10 % 10);
        self.put_digit(n % 10);
    }

    // A number of any length.
    #[inline(always)]
    fn put_long(&mut self, n: u64)
        ensures { Takes (decimal n) self.old self.new }
    {
        let mut digits = [0; 20];
        let first = digits_of(n, &mut digits);
        self.put_all(&digits[first..]);
    }

    // Most numbers of a report are below 1,000: their digits go straight into the buffer.
    #[inline(always)]
    pub fn put_number(&mut self, n: u64)
        ensures { Takes (decimal n) self.old self.new }
    {
        match n {
            0..10 => self.put_digit(n),
            10..100 => self.put_two(n),
            100..1000 => {
                self.put_digit(n / 100);
                self.put_two(n);
            }
            _ => self.put_long(n),
        }
    }

    // A key and its number.
    #[inline(always)]
    pub fn put_pair(&mut self, key: &[u8], n: u64)
        ensures { Takes (key.now ++ decimal n) self.old self.new }
    {
        self.put_all(key);
        self.put_number(n);
    }
}

// The digits of a number stand at the end of `digits`, from the place answered on: 20 hold every number of 64 bits.
fn digits_of(n: u64, digits: &mut [u8; 20]) -> usize
    ensures { (result ≤ 20) × (drop result digits.new ≡ decimal n) }
{
    let mut v = n;
    for i in (0..20).rev() {
        digits[i] = (48 + v % 10) as u8;
        if v < 10 {
            return i;
        }
        v /= 10;
    }
    0
}
