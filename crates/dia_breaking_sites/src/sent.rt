ghost use Rattle.std.specs.Prelude.{◌≢◌, ℕ, List};
ghost use Rattle.dia_book.specs.Dictionary.{Dictionary};
ghost use Rattle.dia_terms.specs.declared.Levels.TheVariants as levels;
ghost use Rattle.dia_valid.specs.Valid.{IsValidOf};
ghost use Rattle.dia_terms.specs.declared.sends.Sends.{Sends as AnySender};
ghost use Rattle.dia_terms.specs.declared.sends.Sends.TheVariants as senders;
ghost use Rattle.dia_breaking_sites.specs.Sent.{own_policy, wider, AreBytes, IsSent};

/// What is sent is valid under the sender's dictionary.
pub fn sent_is_valid()
    ensures { (d : Dictionary) (who : AnySender) (bytes : List ℕ) (c : ℕ)
        → IsSent d who bytes c → IsValidOf d (own_policy who) levels.Any bytes c }
{}

/// But for `Filled` and `Listed`, all that is valid under the sender's dictionary is sent.
pub fn valid_is_sent()
    ensures { (d : Dictionary) (who : AnySender) (bytes : List ℕ) (c : ℕ) → who ≢ senders.Filled → who ≢ senders.Listed
        → AreBytes bytes → IsValidOf d (own_policy who) levels.Any bytes c
        → IsSent d who bytes c }
{}

/// Each sender sends what the one before it sends: `Listed`, `Filled`, `Known`, `Any`.
pub fn wider_sends_more()
    ensures { (d : Dictionary) (who : AnySender) (bytes : List ℕ) (c : ℕ)
        → IsSent d who bytes c → IsSent d (wider who) bytes c }
{}
