//! How many messages ended.

ghost use Rattle.std.specs.Prelude.{◌≡◌};
ghost use Rattle.dia_captures.specs.Ending.{is_yes};

use dia_io::Exit;

/// How the messages ended.
#[derive(Clone, Copy, PartialEq, Eq)]
pub struct Ended {
    /// Each message ended with `Exit::Yes`.
    pub each: bool,
    /// A message ended with `Exit::Yes`.
    pub some: bool,
}

impl Ended {
    ghost use Rattle.std.specs.Prelude.{◌≡◌, []};
    ghost use Rattle.dia_captures.specs.Ending.{ended_of, ended_with};

    /// How no messages ended.
    pub fn none() -> Ended
        ensures { result ≡ ended_of [] }
    {
        Ended {
            each: true,
            some: false,
        }
    }

    /// How the messages ended, and one more.
    pub fn and(self, exit: Exit) -> Ended
        ensures { result ≡ ended_with self exit }
    {
        let yes = is_yes(exit);
        Ended {
            each: self.each && yes,
            some: self.some || yes,
        }
    }
}

/// Whether a message that ended so is as it should be.
pub fn is_yes(exit: Exit) -> bool
    ensures { result ≡ is_yes exit }
{
    matches!(exit, Exit::Yes)
}
