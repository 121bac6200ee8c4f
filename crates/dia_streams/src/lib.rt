//! Messages one by one as the pieces of a text come, in the memory of one message and of the judge.
//!
//! `answer_lines` reads a feed of lines piece by piece, asks a [`Judge`] for the verdict on each line and its text, puts these
//! texts into a sink as they come, and shows the verdicts to a [`Watch`]. Where an answer depends on the lines before, a caller has
//! a loop of its own: [`split_line`] cuts lines off a piece, and [`extend`] collects the line that is under way.
//!
//! `answer_stream` reads messages back to back, as hexadecimal text: it asks a [`MessageJudge`] for the verdict on each message and
//! its line, puts these lines into a sink, and shows the verdicts to a `Watch`, each with the offset at which its message begins.
//! `decode_digits` decodes a text that is all there.
#![tactic(auto)]

mod answered;
mod answering;
mod digits;
mod fault;
mod judge;
mod laws;
mod message_judge;
mod messages;
mod pairs;
mod pending;
mod recorded;
mod splitting;
mod streamed;
mod streaming;
mod watch;

pub use answering::answer_lines;
pub use fault::LinesFault;
pub use judge::Judge;
pub use laws::{front_is_beginning, stream_has_one_answer, text_has_one_answer};
pub use message_judge::MessageJudge;
pub use pairs::decode_digits;
pub use pending::{clear, extend, is_empty};
pub use splitting::split_line;
pub use streaming::answer_stream;
pub use watch::Watch;
