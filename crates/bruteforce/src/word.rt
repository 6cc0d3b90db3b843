// The words of events, and what stands in them: 16 for the kind, 4 for the process, 1 for the peer. Total: a word may
// have a kind above 3, and a save or a done a peer, of which an `Event` cannot speak. (A module of its own, as `event`
// and `kind` differ from `Event` and `Kind` in case alone.)
ghost use Rattle.std.specs.Prelude.{◌≡◌, ◌+◌, ◌*◌, ◌/◌, ◌%◌, ◌<◌};

// An event as one number, from its kind, its process and its peer.
pub fn event(kind: u32, at: u32, peer: u32) -> u32
    ensures { result ≡ kind % 4 * 16 + at % 4 * 4 + peer % 4 }
{
    kind % 4 * 16 + at % 4 * 4 + peer % 4
}

// Its kind, by number: a `Kind` up to 3.
pub fn kind(w: u32) -> u32
    ensures { result ≡ w / 16 }
{
    w / 16
}

pub fn process(w: u32) -> u32
    ensures value { result ≡ w / 4 % 4 }
    ensures upper_bound { result < 4 }
{
    w / 4 % 4
}

pub fn peer(w: u32) -> u32
    ensures value { result ≡ w % 4 }
    ensures upper_bound { result < 4 }
{
    w % 4
}
