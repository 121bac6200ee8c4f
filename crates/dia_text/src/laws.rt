//! What texts that follow a dictionary make, and how far groups on one line are read.

ghost use Rattle.std.specs.Prelude.{◌≡◌, ◌≤◌, ℕ, List, Ok, length};
ghost use Rattle.dia_book.specs.Dictionary.{Dictionary};
ghost use Rattle.dia_terms.specs.declared.Unknown.{Unknown as AnyPolicy};
ghost use Rattle.dia_text.specs.Made.{made};
ghost use Rattle.dia_text.specs.Drafts.{Level};
ghost use Rattle.dia_text.specs.Groups.{group_from};
ghost use Rattle.dia_text.specs.declared.line.Head.{Head};
ghost use Rattle.dia_text.specs.declared.commands.Start.{Start};
ghost use Rattle.dia_text.specs.Keys.{start_named};
ghost use Rattle.dia_text.specs.ValidTexts.{NumbersFit, IsValidText, IsValidOrLong};
ghost use Rattle.dia_text.specs.ValidTexts.{HasOwnFlags};

/// A text whose AVPs are those of a dictionary, with the flags, the places and the data that this gives them, makes a message
/// that `check` calls valid; or one that is too long for a Length field.
pub fn valid_texts_make_valid_messages()
    ensures { (d : Dictionary) (text : List ℕ) → NumbersFit d → IsValidText d text
        → (u : AnyPolicy) → IsValidOrLong d u (made d text) }
{}

/// The flags of a header that begins with the name of a command, and says none, are ones that a message of this command may
/// have.
pub fn named_headers_have_their_flags()
    ensures { (d : Dictionary) (name : List ℕ) (start : Start) → start_named d name ≡ Ok start
        → HasOwnFlags d name start }
{}

/// A group on one line is read to its end: if more parts were read than the line has bytes, it would be the same group, or
/// have the same fault.
pub fn groups_are_read_to_their_end()
    ensures { (d : Dictionary) (head : Head) (level : Level) (text : List ℕ) (n : ℕ) → length text ≤ n
        → group_from n d head level text ≡ group_from (length text) d head level text }
{}
