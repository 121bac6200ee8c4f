//! What AVPs take.
ghost use Rattle.std.specs.Prelude.{◌≡◌, ℕ, List};
ghost use Rattle.dia_wire.specs.declared.Key.{Key as AnyKey};

use dia_book::Key;

/// The lengths of the shortest AVPs that A's side sends, in bytes and padded. Where it sends none of a key, the length is
/// `TOO_LONG`.
pub trait Costs {
    ghost listed_length: { Self → AnyKey → ℕ };

    ghost other_length: { Self → AnyKey → ℕ };

    ghost other_keys: { Self → List AnyKey };

    /// The length of a shortest AVP of a key that a rule lists.
    fn listed(&self, key: Key) -> u64
        ensures { result ≡ listed_length self.now key };

    /// The length of a shortest AVP of a key that a wildcard lets in.
    fn other(&self, key: Key) -> u64
        ensures { result ≡ other_length self.now key };

    /// Keys that a wildcard lets in, those of the shortest AVPs first.
    fn others(&self) -> &[Key]
        ensures { result.now ≡ other_keys self.now };
}
