//! The rules of `lint`, by their words, sets and sections.

ghost use Rattle.std.specs.Prelude.{◌≡◌};
ghost use Rattle.dia_lint.specs.Words.{rules};

/// A rule of `lint`, in the order in which findings of one place are reported.
#[derive(Clone, Copy)]
pub enum Rule {
    NoMessage,
    NoLevel,
    NeverStands,
    NeverHeld,
    SameCommand,
    TwiceListed,
    SaysNothing,
    NeverListed,
    NoAnswer,
    NoRequest,
    PDiffers,
    NoError,
    NoOrigin,
    NoRealm,
    RealmUnrouted,
    RealmAnswered,
    NoRouteRecord,
    NoProxyInfo,
    NoResult,
    NoFailedAvp,
    SessionPlace,
    SessionLost,
    NoSession,
    Closed,
    BaseAvp,
    Reserved,
    ClosedGroup,
}

/// A set of rules.
#[derive(Clone, Copy, PartialEq, Eq)]
pub enum RuleSet {
    /// What follows from the meaning of the dictionary.
    Exact,
    /// What an RFC recommends.
    Guidelines,
    /// Rules of both sorts that are reported only where they are asked for.
    More,
}

/// How many rules there are.
pub const RULE_COUNT: usize = 27;

/// All rules, in their order.
static RULES: [Rule; RULE_COUNT] = [
    Rule::NoMessage,
    Rule::NoLevel,
    Rule::NeverStands,
    Rule::NeverHeld,
    Rule::SameCommand,
    Rule::TwiceListed,
    Rule::SaysNothing,
    Rule::NeverListed,
    Rule::NoAnswer,
    Rule::NoRequest,
    Rule::PDiffers,
    Rule::NoError,
    Rule::NoOrigin,
    Rule::NoRealm,
    Rule::RealmUnrouted,
    Rule::RealmAnswered,
    Rule::NoRouteRecord,
    Rule::NoProxyInfo,
    Rule::NoResult,
    Rule::NoFailedAvp,
    Rule::SessionPlace,
    Rule::SessionLost,
    Rule::NoSession,
    Rule::Closed,
    Rule::BaseAvp,
    Rule::Reserved,
    Rule::ClosedGroup,
];

/// All rules, in their order.
pub fn all_rules() -> &'static [Rule]
    ensures { result.now ≡ rules }
{
    RULES.as_slice()
}

impl RuleSet {
    ghost use Rattle.std.specs.Prelude.{◌≡◌};
    ghost use Rattle.dia_terms.specs.Names.{same_bytes};
    ghost use Rattle.dia_lint.specs.Words.{set_named, set_word};

    const ALL: [RuleSet; 3] = [RuleSet::Exact, RuleSet::Guidelines, RuleSet::More];

    /// The word of the set.
    pub fn word(self) -> &'static str
        ensures { result.now ≡ set_word self }
    {
        match self {
            RuleSet::Exact => "exact",
            RuleSet::Guidelines => "guidelines",
            RuleSet::More => "more",
        }
    }

    /// The set of a word.
    pub fn named(word: &str) -> Option<RuleSet>
        ensures { result ≡ set_named word.now }
    {
        RuleSet::ALL.iter().copied().find(|set| set.is_named(word))
    }

    fn is_named(self, word: &str) -> bool
        ensures { result ≡ same_bytes word.now (set_word self) }
    {
        word == self.word()
    }
}

impl Rule {
    ghost use Rattle.std.specs.Prelude.{◌≡◌};
    ghost use Rattle.std.specs.Option.{option_map};
    ghost use Rattle.dia_lint.specs.Words.{names_rule, rule_named, rule_number, rule_word, section_of, set_of};

    /// The word of the rule.
    pub fn word(self) -> &'static str
        ensures { result.now ≡ rule_word self }
    {
        match self {
            Rule::NoMessage => "no-message",
            Rule::NoLevel => "no-level",
            Rule::NeverStands => "never-stands",
            Rule::NeverHeld => "never-held",
            Rule::SameCommand => "same-command",
            Rule::TwiceListed => "twice-listed",
            Rule::SaysNothing => "says-nothing",
            Rule::NeverListed => "never-listed",
            Rule::NoAnswer => "no-answer",
            Rule::NoRequest => "no-request",
            Rule::PDiffers => "p-differs",
            Rule::NoError => "no-error",
            Rule::NoOrigin => "no-origin",
            Rule::NoRealm => "no-realm",
            Rule::RealmUnrouted => "realm-unrouted",
            Rule::RealmAnswered => "realm-answered",
            Rule::NoRouteRecord => "no-route-record",
            Rule::NoProxyInfo => "no-proxy-info",
            Rule::NoResult => "no-result",
            Rule::NoFailedAvp => "no-failed-avp",
            Rule::SessionPlace => "session-place",
            Rule::SessionLost => "session-lost",
            Rule::NoSession => "no-session",
            Rule::Closed => "closed",
            Rule::BaseAvp => "base-avp",
            Rule::Reserved => "reserved",
            Rule::ClosedGroup => "closed-group",
        }
    }

    /// The place of the rule among all, from 0.
    pub fn number(self) -> u8
        ensures { result ≡ rule_number self }
    {
        self as u8
    }

    /// The set that the rule is in.
    pub fn set(self) -> RuleSet
        ensures { result ≡ set_of self }
    {
        match self {
            Rule::NoMessage
            | Rule::NoLevel
            | Rule::NeverStands
            | Rule::NeverHeld
            | Rule::SameCommand
            | Rule::TwiceListed => RuleSet::Exact,
            Rule::SaysNothing | Rule::NeverListed | Rule::ClosedGroup => RuleSet::More,
            _ => RuleSet::Guidelines,
        }
    }

    /// Where a guideline comes from.
    pub fn section(self) -> Option<&'static str>
        ensures { option_map (λ text. text.now) result ≡ section_of self }
    {
        match self {
            Rule::NoAnswer | Rule::NoRequest => Some("RFC 6733 3.1"),
            Rule::PDiffers => Some("RFC 6733 6.2, 7.2"),
            Rule::NoError => Some("RFC 6733 7.2"),
            Rule::NoOrigin => Some("RFC 6733 6.3, 6.4"),
            Rule::NoRealm => Some("RFC 6733 6.6"),
            Rule::RealmUnrouted => Some("RFC 6733 6.1"),
            Rule::RealmAnswered | Rule::SessionLost => Some("RFC 6733 6.2"),
            Rule::NoRouteRecord => Some("RFC 6733 6.1.9"),
            Rule::NoProxyInfo => Some("RFC 6733 6.1.9, 6.2"),
            Rule::NoResult => Some("RFC 6733 7.1, 7.6"),
            Rule::NoFailedAvp => Some("RFC 6733 7.5"),
            Rule::SessionPlace => Some("RFC 6733 8.8"),
            Rule::NoSession => Some("RFC 7423 5.5"),
            Rule::Closed | Rule::ClosedGroup => Some("RFC 7423 5.2"),
            Rule::BaseAvp => Some("RFC 6733 4.5"),
            Rule::Reserved => Some("RFC 6733 3, 2.4"),
            _ => None,
        }
    }

    /// What to do about a finding.
    pub fn advice(self) -> &'static str {
        match self {
            Rule::NoMessage | Rule::NoLevel => {
                "let the group that needs itself end, as by [ X ] for { X }, or lower a least count"
            }
            Rule::NeverStands => "fix the group of the rule, or drop the rule",
            Rule::NeverHeld => "list the AVP in a definition, add * [ AVP ] to one, or drop it",
            Rule::SameCommand => "drop the command, or give it rules of its own",
            Rule::TwiceListed => "drop one of the ranges",
            Rule::SaysNothing => "give the rule a count, or leave it as a note to the reader",
            Rule::NeverListed => "list the AVP where it is to occur",
            Rule::NoAnswer | Rule::NoRequest => "define it",
            Rule::PDiffers => "write PXY in both or in neither, and [, PXY] in the errors",
            Rule::NoError => "define the answer-message, with code, ERR",
            Rule::NoOrigin => "require it, by { Origin-Host } and { Origin-Realm }",
            Rule::NoRealm => "require it, by { Destination-Realm }, or drop PXY",
            Rule::RealmUnrouted => "drop the rule, or write PXY",
            Rule::RealmAnswered => "drop the rule",
            Rule::NoRouteRecord => "add * [ Route-Record ]",
            Rule::NoProxyInfo => "add * [ Proxy-Info ]",
            Rule::NoResult => "require it, by { Result-Code }",
            Rule::NoFailedAvp => "add [ Failed-AVP ]",
            Rule::SessionPlace => "write < Session-Id > as the first rule",
            Rule::SessionLost => "add < Session-Id >",
            Rule::NoSession => "add < Session-Id > or { Auth-Session-State }",
            Rule::Closed | Rule::ClosedGroup => "add * [ AVP ]",
            Rule::BaseAvp => "declare the AVP as the RFC does",
            Rule::Reserved => "choose another number",
        }
    }

    /// The rule of a word.
    pub fn named(word: &str) -> Option<Rule>
        ensures { result ≡ rule_named word.now }
    {
        all_rules().iter().copied().find(|rule| rule.is_named(word))
    }

    fn is_named(self, word: &str) -> bool
        ensures { result ≡ names_rule word.now self }
    {
        word == self.word()
    }
}
