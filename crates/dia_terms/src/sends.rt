/// Which messages a sender sends by its dictionary.
#[derive(Clone, Copy, PartialEq, Eq)]
pub enum Sends {
    /// Also AVPs that the dictionary doesn't know, with M clear, wherever a wildcard lets them in.
    Any,
    /// Only AVPs that the dictionary knows.
    Known,
    /// AVPs that the dictionary knows, where `[ AVP ]` is the only rule of their level that doesn't forbid AVPs; elsewhere only
    /// AVPs that a rule names.
    Filled,
    /// Only AVPs that a rule of their level names, at every depth.
    Listed,
}
