//! A few bytes, held by value.

ghost use Rattle.std.specs.Prelude.{◌≡◌, ◌≤◌, ◌++◌, [], length, take};

/// How many bytes a front has room for: a header's (RFC 6733 section 3), which is longer than the head of an AVP.
const ROOM: usize = 20;

/// The first bytes of a header or of an AVP, as long as it isn't whole.
#[derive(Clone, Copy)]
pub(crate) struct Front {
    count: usize,
    bytes: [u8; 20],
    ghost within: { count ≤ 20 },
}

impl Front {
    ghost use Rattle.dia_check.specs.Front.{front_bytes};

    pub(crate) fn new() -> Self
        ensures { front_bytes result ≡ [] }
    {
        Front {
            count: 0,
            bytes: [0; 20],
        }
    }

    pub(crate) fn as_slice(&self) -> &[u8]
        ensures { result.now ≡ front_bytes self.now }
    {
        &self.bytes[..self.count]
    }

    pub(crate) fn len(&self) -> usize
        ensures { result ≡ length (front_bytes self.now) }
    {
        self.count
    }

    /// Takes as many bytes of the piece as there is room for.
    pub(crate) fn take_from(&mut self, piece: &[u8])
        ensures { front_bytes self.new ≡ take 20 (front_bytes self.old ++ piece.now) }
    {
        if self.count == 0 && piece.len() >= ROOM {
            // so many bytes are copied without a call
            self.bytes.copy_from_slice(&piece[..ROOM]);
            self.count = ROOM;
            return;
        }
        let taken = piece.len().min(ROOM - self.count);
        let end = self.count + taken;
        let bytes = &mut self.bytes[..];
        bytes[self.count..end].copy_from_slice(&piece[..taken]);
        self.count = end;
    }
}
