//! Texts with words in braces, which are replaced by values.

use dia_explain_places::Note;

/// A word of a text. At the start of a line of `comparing` it is the part that the line is about.
#[derive(Clone, Copy)]
pub enum Word {
    A,
    App,
    At,
    B,
    Bad,
    After,
    Byte,
    Bytes,
    Class,
    Code,
    Count,
    Counted,
    Counts,
    Data,
    Declared,
    Depth,
    File,
    First,
    Fits,
    Flag,
    Flags,
    Format,
    Found,
    Head,
    Hint,
    Id,
    Key,
    Lack,
    Left,
    Length,
    LengthHint,
    Lengths,
    Level,
    Levels,
    Longest,
    Loose,
    M,
    Message,
    Messages,
    Most,
    Name,
    Optional,
    Other,
    Own,
    Place,
    Policy,
    Pxy,
    Req,
    Rest,
    Right,
    Rule,
    Second,
    Sends,
    Sent,
    Subject,
    Table,
    Taken,
    Takes,
    Theirs,
    Unbounded,
    Unsent,
    Value,
    Values,
    Vendor,
    Wanted,
    Wide,
    Wildcard,
    X,
    Y,
}

/// The words, as texts have them.
static WORDS: [(&str, Word); 69] = [
    ("a", Word::A),
    ("app", Word::App),
    ("at", Word::At),
    ("b", Word::B),
    ("bad", Word::Bad),
    ("following", Word::After),
    ("byte", Word::Byte),
    ("bytes", Word::Bytes),
    ("class", Word::Class),
    ("code", Word::Code),
    ("count", Word::Count),
    ("counted", Word::Counted),
    ("counts", Word::Counts),
    ("data", Word::Data),
    ("declared", Word::Declared),
    ("depth", Word::Depth),
    ("file", Word::File),
    ("first", Word::First),
    ("fits", Word::Fits),
    ("flag", Word::Flag),
    ("flags", Word::Flags),
    ("format", Word::Format),
    ("found", Word::Found),
    ("head", Word::Head),
    ("hint", Word::Hint),
    ("id", Word::Id),
    ("key", Word::Key),
    ("lack", Word::Lack),
    ("left", Word::Left),
    ("length", Word::Length),
    ("length-hint", Word::LengthHint),
    ("lengths", Word::Lengths),
    ("level", Word::Level),
    ("levels", Word::Levels),
    ("longest", Word::Longest),
    ("loose", Word::Loose),
    ("m", Word::M),
    ("message", Word::Message),
    ("messages", Word::Messages),
    ("most", Word::Most),
    ("name", Word::Name),
    ("optional", Word::Optional),
    ("other", Word::Other),
    ("own", Word::Own),
    ("place", Word::Place),
    ("policy", Word::Policy),
    ("pxy", Word::Pxy),
    ("req", Word::Req),
    ("rest", Word::Rest),
    ("right", Word::Right),
    ("rule", Word::Rule),
    ("second", Word::Second),
    ("sends", Word::Sends),
    ("sent", Word::Sent),
    ("subject", Word::Subject),
    ("table", Word::Table),
    ("taken", Word::Taken),
    ("takes", Word::Takes),
    ("theirs", Word::Theirs),
    ("unbounded", Word::Unbounded),
    ("unsent", Word::Unsent),
    ("value", Word::Value),
    ("values", Word::Values),
    ("vendor", Word::Vendor),
    ("wanted", Word::Wanted),
    ("wide", Word::Wide),
    ("wildcard", Word::Wildcard),
    ("x", Word::X),
    ("y", Word::Y),
];

/// The word with this name.
pub fn word_named(name: &str) -> Option<Word> {
    for (own, word) in &WORDS {
        if *own == name {
            return Some(*word);
        }
    }
    None
}

/// What a text is about.
pub trait Scene {
    /// Adds the value of a word.
    fn push_word(&self, note: &mut Note, word: Word);
}

/// Adds a text, with the values of its words.
pub fn push_text<S: Scene>(note: &mut Note, scene: &S, text: &str) {
    for piece in text.split('{') {
        push_piece(note, scene, piece);
    }
}

/// Adds the value of a word, and the text after it, or the text before the first word.
fn push_piece<S: Scene>(note: &mut Note, scene: &S, piece: &str) {
    let Some((name, rest)) = piece.split_once('}') else {
        return note.put(piece);
    };
    if let Some(word) = word_named(name) {
        scene.push_word(note, word);
    }
    note.put(rest)
}

/// Adds a hint.
pub fn push_hint<S: Scene>(note: &mut Note, scene: &S, text: &str) {
    note.put("hint: ");
    push_text(note, scene, text);
    note.put("\n")
}
