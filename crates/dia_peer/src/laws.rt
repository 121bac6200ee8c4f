//! What holds of every connection.

ghost use Rattle.std.specs.Prelude.{◌≡◌, ◌↔◌, ℕ, IsTrue, List, map, All, false};
ghost use Rattle.dia_wire.specs.Wire.{IsMessage};
ghost use Rattle.dia_dict.specs.Base.{base};
ghost use Rattle.dia_check.specs.declared.Unknown.TheVariants.{Kept};
ghost use Rattle.dia_check.specs.declared.Levels.TheVariants.{Any};
ghost use Rattle.dia_valid.specs.Valid.{IsValid};
ghost use Rattle.dia_peer.specs.Core.{PlainConfig, PlainCore, IsConfig, Pair, Sent};
ghost use Rattle.dia_peer.specs.Core.{pair_of, is_relay, plain, common_of};
ghost use Rattle.dia_peer.specs.Messages.{IsOurs};
ghost use Rattle.dia_peer.specs.World.{World, Event as AnyEvent, Run, start, idle, Agrees, KnowEachOther};
ghost use Rattle.dia_peer.specs.Life.{Act, ClosesInSilence};
ghost use Rattle.dia_peer.specs.Machine.{AnswersAt, AnswersOnly, IsPlain, IsStep, IsTableStep};
ghost use Rattle.dia_peer.specs.Table.{Happening};
ghost use Rattle.dia_peer.specs.Outputs.{SendsBytes, plain_output};
ghost use Rattle.dia_peer.specs.declared.config.Manner.{Manner as AnyManner};
ghost use Rattle.dia_peer.specs.declared.config.Role.{Role as AnyRole};
ghost use Rattle.dia_peer.specs.declared.event.Event.{Event as CoreEvent};
ghost use Rattle.dia_peer.specs.declared.event.Output.{Output as CoreOutput};

/// However the messages of two ends of any manners are lost, repeated or reordered, each end that is open holds the
/// applications that both have in common as its manner reads them, at least one; two open ends of one manner hold the same.
pub fn agreement()
    ensures { (a b : PlainConfig) (m n : AnyManner) (events : List (AnyRole × AnyEvent)) (w : World)
        → IsConfig a → IsConfig b
        → Run (start a m b n) events w → Agrees a m b n w }
{}

/// Where neither a configuration nor what the other end advertises has the number of relays, no manner changes what the two
/// have in common, which is all that an event reads a manner for.
pub fn without_relays()
    ensures { (manner : AnyManner) (c : PlainConfig) (theirs : List Pair)
        → is_relay (map pair_of c.apps) ≡ false → is_relay theirs ≡ false
        → common_of manner c theirs ≡ common_of plain c theirs }
{}

/// Each message that a core of an accepted configuration sends is valid under the base dictionary, whatever its
/// identifiers and its result code are.
pub fn our_messages_are_valid()
    ensures { (c : PlainConfig) (m : Sent) (bytes : List ℕ) → IsConfig c → IsOurs c m
        → IsMessage m.header m.avps bytes → IsValid base Kept Any bytes }
{}

/// The values that an open end of the manner `values` keeps of the other, of any manner, are those of the other's
/// configuration: host, realm and product.
pub fn their_values()
    ensures { (a b : PlainConfig) (m n : AnyManner) (events : List (AnyRole × AnyEvent)) (w : World)
        → IsConfig a → IsConfig b
        → Run (start a m b n) events w → KnowEachOther a m b n w }
{}

/// With the manner `life`, a watchdog closes a connection only at a `Tick` after another one, both while it waits for its
/// answer, and nothing is heard of the other end between these: no bytes came, and `heard` wasn't called.
pub fn silence()
    ensures { (c : PlainConfig) (role : AnyRole) (manner : AnyManner) (all : List Act) (h : Happening)
        → IsTrue manner.life → ClosesInSilence (idle c role manner) all h }
{}

/// Without a manner but that of relays each step is a line of the table, and no other.
pub fn plain()
    ensures { (old new : PlainCore) (e : CoreEvent) (outputs : List CoreOutput) → IsPlain old.manner
        → IsStep old e outputs new ↔ IsTableStep old e outputs new }
{}

/// What goes out in front of `Close(Invalid)` is the answer to the request that came, the one that dia_answer makes, and only
/// with the manner `answers`; so no answer is answered. With it, bytes that are no valid message are answered where the
/// connection is open, and where a CER is waited for and they have its command code, unless dia_answer makes no answer to them.
pub fn answered()
    ensures { (old new : PlainCore) (e : CoreEvent) (outputs : List CoreOutput)
        → IsStep old e outputs new → AnswersOnly old e outputs × AnswersAt old e outputs }
{}

/// A step has one outcome, whatever the manner: a core and an event have one core afterwards and one list of what is done,
/// the bytes of each message, of an answer to an invalid request too, and each reason to close, in their order.
pub fn one_step()
    ensures { (old new other : PlainCore) (e : CoreEvent) (a b : List CoreOutput)
        → IsStep old e a new → IsStep old e b other
        → All SendsBytes a → All SendsBytes b
        → (new ≡ other) × (map plain_output a ≡ map plain_output b) }
{}
