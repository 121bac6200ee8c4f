/// Which AVPs are masked, and how the summary is written.
///
/// Each list has names of AVPs with commas between them, and `AVP` for those that the dictionary doesn't know. The command line
/// refuses `only` beside one of the others.
#[derive(Clone, Copy)]
pub struct Options<'a> {
    /// These stay as they are.
    pub keep: Option<&'a str>,
    /// These are masked, too.
    pub mask: Option<&'a str>,
    /// These are masked, and no others.
    pub only: Option<&'a str>,
    /// The summary is JSON, an object a line.
    pub json: bool,
}
