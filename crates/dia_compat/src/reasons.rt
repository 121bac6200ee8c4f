//! Why a pair of definitions fails a test.

use dia_book::Key;

/// What fails a test. `first` and `second` are rules of the first and of the second dictionary's definition, by their places
/// among its rules, from 0.
#[derive(Clone, Copy)]
pub enum Failing {
    /// N1: at the place of a fixed rule of the second, the first has no fixed rule of the same AVP with counts within. `first` is
    /// its rule of that AVP, wherever it is.
    Fixed { first: Option<usize>, second: usize },
    /// N2: the counts of two rules of one AVP: those of the first don't lie within those of the second.
    Counts { first: usize, second: usize },
    /// N3: the AVP of a rule may be sent, and the second has neither a rule of it nor a wildcard.
    Unlisted { first: usize },
    /// N4: the AVP of a rule may be sent, and has no pair in the table that it needs.
    Uncovered { first: usize },
    /// N5: the second wants an AVP that the first doesn't list.
    Required { second: usize },
    /// N5: the wildcard of the first may bring more of an AVP than the second's rule allows.
    Crowded { first: usize, second: usize },
    /// N6: the first has a wildcard and the second has none.
    NoWildcard { first: usize },
    /// N7: the AVP of a rule is one of those that the second's wildcard counts.
    CountsAsOther { first: usize, wildcard: usize },
    /// N7: the greatest counts of the two wildcards.
    WildcardMost { first: usize, second: usize },
    /// N8: the least counts of the two wildcards; the first may have none.
    WildcardLeast { first: Option<usize>, second: usize },
    /// N8: the second lists an AVP that the first's wildcard may let in, so its own wildcard doesn't count it.
    NotCounted { second: usize, wildcard: usize },
    /// N9: the wildcard of the first lets in AVPs that the first dictionary doesn't know, and the second knows this one and
    /// accepts it only with some data or with the M flag.
    Stranger { first: usize, key: Key },
    /// N9: the wildcard of the first lets in a known AVP that has no pair in the table that it needs.
    LetIn { first: usize, key: Key },
    /// N10: the first dictionary has nothing of the pair's first name.
    FirstName,
    /// N10: the second dictionary has nothing of the pair's second name.
    SecondName,
    /// N10: the codes or the vendors of two AVPs.
    Keys,
    /// N10: the rules of the M flag of two AVPs.
    MRules,
    /// N10: the formats of two AVPs.
    Formats,
    /// N10: the codes of two commands, or that one is for requests and the other is not.
    Heads,
    /// N10: what two commands say of the P flag.
    PFlags,
    /// N10: the second dictionary has no definition for all messages of the command.
    Unserved,
    /// N10: the second dictionary may read messages of the command by this one of its commands, and the table doesn't have the
    /// pair. Commands count from 0.
    NotBeside { second: usize },
}
