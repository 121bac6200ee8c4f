//! What a call answers. `c/dia.h` has the same numbers.

ghost use Rattle.std.specs.Prelude.{◌≡◌};
ghost use Rattle.dia_c_calls.specs.Statuses.{ok, refused, none, no_memory, no_room};
ghost use Rattle.dia_c_calls.specs.Statuses.{is_open, is_closed, bad_argument, outputs_left, spent};

/// Done.
pub const DONE: u32 = 0;

/// The input is no dictionary, or no header of a message.
pub const REFUSED: u32 = 1;

/// There is none.
pub const NONE: u32 = 2;

/// Memory was refused.
pub const NO_MEMORY: u32 = 3;

/// What is to be written is longer than the room for it.
pub const NO_ROOM: u32 = 4;

/// The handle is open already.
pub const IS_OPEN: u32 = 5;

/// The handle is closed.
pub const IS_CLOSED: u32 = 6;

/// A number among the arguments has no meaning.
pub const BAD_ARGUMENT: u32 = 7;

/// Outputs of the last event are left to be taken.
pub const OUTPUTS_LEFT: u32 = 8;

/// The stream was refused memory before.
pub const SPENT: u32 = 9;

/// Each answer has the number of its word in `c/dia.h`.
pub fn status_numbers()
    ensures ok { DONE ≡ ok }
    ensures refused { REFUSED ≡ refused }
    ensures none { NONE ≡ none }
    ensures no_memory { NO_MEMORY ≡ no_memory }
    ensures no_room { NO_ROOM ≡ no_room }
    ensures is_open { IS_OPEN ≡ is_open }
    ensures is_closed { IS_CLOSED ≡ is_closed }
    ensures bad_argument { BAD_ARGUMENT ≡ bad_argument }
    ensures outputs_left { OUTPUTS_LEFT ≡ outputs_left }
    ensures spent { SPENT ≡ spent }
{}
