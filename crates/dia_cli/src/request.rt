//! What the words of the command line ask for.

use crate::origin::Origins;
use crate::task::Task;

/// What the program is to do, and where its inputs come from.
#[derive(Drop)]
pub struct Request<'a> {
    pub task: Task,
    pub origins: Origins<'a>,
    /// Standard error stays empty where a run ends with an outcome.
    pub quiet: bool,
    /// The answer is JSON.
    pub json: bool,
}
