//! A few bytes, held by value.
ghost use Rattle.std.specs.Prelude.{◌≡◌, ◌≤◌, ◌++◌, [], take};

/// The first bytes of some data, at most `N`.
#[derive(Clone, Copy)]
pub(crate) struct Front<const N: usize> {
    count: usize,
    bytes: [u8; N],
    ghost within: { count ≤ N },
}

impl<const N: usize> Front<N> {
    ghost use Rattle.dia_data.specs.Front.{front_bytes};

    pub(crate) fn new() -> Self
        ensures { front_bytes result ≡ [] }
    {
        Front {
            count: 0,
            bytes: [0; N],
        }
    }

    pub(crate) fn as_slice(&self) -> &[u8]
        ensures { result.now ≡ front_bytes self.now }
    {
        &self.bytes[..self.count]
    }

    /// Takes as many bytes of the data as there is room for.
    pub(crate) fn take_from(&mut self, piece: &[u8])
        ensures { front_bytes self.new ≡ take N (front_bytes self.old ++ piece.now) }
    {
        let taken = piece.len().min(N - self.count);
        let end = self.count + taken;
        let bytes = &mut self.bytes[..];
        bytes[self.count..end].copy_from_slice(&piece[..taken]);
        self.count = end;
    }
}
