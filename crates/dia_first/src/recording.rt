//! Writing to standard error.

use std::alloc::AllocError;

/// Writes a text that was made, if memory was there for it. Where the device fails, nothing is written.
pub fn report_made<R: Eprint>(rt: &R, made: Result<String, AllocError>) {
    if let Ok(text) = made {
        let _ = rt.eprint(text);
    }
}
