//! What holds of the answers of every judge.

ghost use Rattle.dia_streams.specs.FeedToSink.{FrontIsBeginning};
ghost use Rattle.dia_streams.specs.Lines.{LineHasOneAnswer, TextHasOneAnswer, recorded_lines};
ghost use Rattle.dia_streams.specs.Streams.{BytesHaveOneVerdict, StreamHasOneAnswer};

use crate::judge::Judge;
use crate::message_judge::MessageJudge;

/// Where each line has one verdict, each text has one list of them.
pub fn text_has_one_answer<J: Judge>(judge: &J)
    ensures { LineHasOneAnswer (J.says judge.now) → TextHasOneAnswer (J.says judge.now) }
{}

/// Where each line has one verdict, a call that fails has put a prefix of the text.
pub fn front_is_beginning<J: Judge>(judge: &J)
    ensures { LineHasOneAnswer (J.says judge.now)
        → FrontIsBeginning (J.says judge.now) (recorded_lines (J.recorded judge.now)) }
{}

/// Where the bytes of a message have one verdict, a stream has one list of them.
pub fn stream_has_one_answer<J: MessageJudge>(judge: &J)
    ensures { BytesHaveOneVerdict (J.says judge.now) → StreamHasOneAnswer (J.says judge.now) }
{}
