//! What the program was built of.

use std::alloc::{AllocError, Global};

const VERSION: &str = "1.0.0";

/// The commit, which `git archive` writes here.
const COMMIT: &str = "$Format:%H$";

/// The first line of the file KIT: the kit with which the gate last passed.
const KIT: &str = "rattle-kit-13f logic dac8208d650f15bf";

/// What `--version` shows: the version, the commit, if it is known, and the kit.
pub(crate) fn version(alloc: Global) -> Result<String, AllocError> {
    if COMMIT.starts_with("$") {
        format!(in alloc; "{VERSION} ({KIT})")
    } else {
        format!(in alloc; "{VERSION} (commit {COMMIT}, {KIT})")
    }
}
