ghost use Rattle.std.specs.Prelude.{◌≡◌, ℕ, ◌≤◌, Bool, IsTrue, List, Some, slice_get, sum_by};
ghost use Rattle.dia_wire.specs.Wire.{PlainAvp, padded_length};
ghost use Rattle.dia_book.specs.declared.DRule.{DRule as AnyRule};
ghost use Rattle.dia_book.specs.Dictionary.{Dictionary, PlainDefinition, IsDictionary, definitions};
ghost use Rattle.dia_terms.specs.declared.Unknown.{Unknown as AnyPolicy};
ghost use Rattle.dia_terms.specs.declared.sends.Sends.{Sends as AnySender};
ghost use Rattle.dia_breaking_sites.specs.Sites.{Site, IsLevelOf, LevelTest, Passes, AreSafe, AreLevelsOfB, LevelsAreRead};
ghost use Rattle.dia_breaking_sites.specs.Selection.{FlagTest, IsForbidden, AreMet, AreValidWhere, IsMetBy};

/// Where each level that lies in a level of AVPs that can be sent is as B's rules say, and by itself each AVP of it fits B, that
/// level is one of B's, at every depth of groups.
pub fn levels_are_read()
    ensures { LevelsAreRead }
{}

/// Where nothing breaks in levels of some sites that pass a test, and groups lead to these sites alone, each level of them that
/// can be sent is a level of B's, if each level that lies in it passes: its AVPs are as the rules say, and each fits, at every
/// depth of groups.
pub fn safe_sites_read_levels()
    ensures { (da db : Dictionary) (who : AnySender) (u : AnyPolicy) (test : LevelTest)
        (sites : List Site) → AreSafe da db who u (Passes test) sites
        → AreLevelsOfB da db who u (Passes test) sites }
{}

/// Where B selects a definition for each header of a command of A's, unless it is reported that it refuses some, and the site of
/// the two is one of such sites, each message of the command that A's side sends, and that is as asked, is valid under B.
pub fn safe_sites_include()
    ensures { (da db : Dictionary) (who : AnySender) (u : AnyPolicy) (test : LevelTest)
        (refuses : Bool) (forbids : FlagTest) (sites : List Site) (c : ℕ) (command : PlainDefinition)
        → AreSafe da db who u (Passes test) sites → slice_get (definitions da) c ≡ Some command
        → AreMet da db sites (IsTrue refuses) (IsForbidden forbids) c command
        → AreValidWhere da db who u (Passes test) (IsTrue refuses) (IsForbidden forbids) c }
{}

/// A few headers of a command represent all: that of its application; for a command without one, those of the applications that
/// B alone names and that of one that neither dictionary names; and for errors any one.
pub fn few_headers_report()
    ensures { (da db : Dictionary) (sites : List Site) (refuses : Bool) (forbids : FlagTest) (c : ℕ)
        (command : PlainDefinition) → IsDictionary da → IsDictionary db
        → slice_get (definitions da) c ≡ Some command
        → IsMetBy da db sites (IsTrue refuses) (IsForbidden forbids) command command.head
        → AreMet da db sites (IsTrue refuses) (IsForbidden forbids) c command }
{}

/// The AVPs of a level, each with its padding, take no more than the room that the level has.
pub fn levels_keep_to_room()
    ensures { (da : Dictionary) (who : AnySender) (rules : List AnyRule) (room : ℕ)
        (avps : List PlainAvp) → IsLevelOf da who rules room avps
        → sum_by padded_length avps ≤ room }
{}
