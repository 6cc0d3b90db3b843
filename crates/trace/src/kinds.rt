// The kinds of events, by the two bits of an event's word that say it.
ghost use Rattle.std.specs.Prelude.{◌≡◌};
ghost use Rattle.trace.specs.Kind.{number_of_kind};
ghost use Rattle.trace.specs.Table.{kind_in};

// What an event is: the end of a checkpoint, a send, a receive or a checkpoint.
#[derive(Clone, Copy, Debug, PartialEq, Eq)]
pub enum Kind {
    Done = 0,
    Send = 1,
    Receive = 2,
    Save = 3,
}

impl Kind {
    // The kind that an event's word in the table area has.
    pub fn of(word: u32) -> Kind
        ensures { number_of_kind result ≡ kind_in word }
    {
        match crate::top(word) % 4 {
            0 => Kind::Done,
            1 => Kind::Send,
            2 => Kind::Receive,
            _ => Kind::Save,
        }
    }
}
