//! When gaps are given up.

ghost use Rattle.std.specs.Prelude.{◌≡◌};
ghost use Rattle.dia_directions.specs.Gaps.{is_late};

/// How long bytes wait for those before them, in nanoseconds.
pub const PATIENCE: u64 = 3_000_000_000;

/// Whether bytes wait too long at a packet of this time, if they wait since another one. Where a time isn't known they wait on.
pub fn is_late(since: Option<u64>, time: Option<u64>) -> bool
    ensures { result ≡ is_late since time }
{
    match (since, time) {
        (Some(since), Some(time)) => time.saturating_sub(since) > PATIENCE,
        _ => false,
    }
}
