// The lines that the program prints, each from its numbers into a lent buffer, byte for byte by specs/Lines. (Tried by
// `write!` and `Display`: the same lines take 1.6 to 2.4 times the instructions.) Assumes nothing.
#![tactic(auto)]

ghost use Rattle.std.specs.Prelude.{◌≡◌};
ghost use Rattle.writer.specs.Inner.Puts.{Puts};
ghost use Rattle.writer.specs.Inner.Sinks.{Takes};
ghost use Rattle.printing.specs.Lines.{process_line, total_line, refusal_line};
ghost use Rattle.printing.specs.Inner.Rows.{words_row};

use writer::Sink;

// The line of a process. Each line has a function with its own keys, and not one that is given them, so that the
// compiler knows their lengths.
pub fn put_process(sink: &mut Sink<'_, u8>, z: u64, epoch: u32, number: u32, phase: u32)
    ensures { Takes (process_line z epoch number phase) sink.old sink.new }
{
    sink.put_pair(b"out=proc at=", z);
    sink.put_pair(b" epoch=", u64::from(epoch));
    sink.put_pair(b" restart=", u64::from(number));
    sink.put_pair(b" phase=", u64::from(phase));
    sink.put_all(b"\n");
}

// The line of a message, from its first key and its three words.
#[inline(always)]
pub fn put_message(sink: &mut Sink<'_, u8>, key: &[u8], w: u32, number: u32, phase: u32)
    ensures { Takes (words_row key.now w number phase) sink.old sink.new }
{
    sink.put_pair(key, u64::from(w % 64));
    sink.put_pair(b" to=", u64::from(w / 64 % 64));
    sink.put_pair(b" no=", u64::from(number));
    sink.put_pair(b" phase=", u64::from(phase));
    sink.put_all(b"\n");
}

pub fn put_refusal(out: &mut [u8], number: u32, place: usize) -> usize
    ensures { Puts (refusal_line number place) out.old 0 out.new result }
{
    let mut sink = Sink { out, next: 0 };
    sink.put_pair(b"refused=", u64::from(number));
    sink.put_pair(b" place=", place as u64);
    sink.put_all(b"\n");
    sink.next
}

pub fn put_total(sink: &mut Sink<'_, u8>, back: u32, orphans: usize, kept: usize, steps: usize)
    ensures { Takes (total_line back orphans kept steps) sink.old sink.new }
{
    sink.put_pair(b"out=total back=", u64::from(back));
    sink.put_pair(b" orphans=", orphans as u64);
    sink.put_pair(b" kept=", kept as u64);
    sink.put_pair(b" steps=", steps as u64);
    sink.put_all(b"\n");
}
