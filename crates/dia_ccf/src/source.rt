//! What a dictionary text says.
ghost use Rattle.std.specs.Prelude.{◌&&◌, IsTrue, not, map, string_bytes};
ghost use Rattle.std.specs.List.{list_all};
ghost use Rattle.dia_ccf.specs.Names.{is_name, is_rule_name, is_number, is_qualifier};
ghost use Rattle.dia_ccf.specs.Names.{fits_values, is_head, fixed_first, is_group};

use dia_terms::{FormatName, MRule, Pxy, RuleKind};

/// A declared AVP (our profile).
#[derive(Drop)]
pub struct Decl {
    /// The place in bytes of its first token, `%avp`.
    pub at: usize,
    pub name: String,
    pub code: u32,
    /// 0 is no vendor.
    pub vendor: u32,
    pub format: FormatName,
    /// The values of an Enumerated AVP as ranges, each its lowest and its highest value, both within. `None` is no
    /// list (our profile).
    pub values: Option<Vec<(u32, u32)>>,
    pub rule: MRule,
    pub ghost named: { IsTrue (is_name (string_bytes name)) },
    pub ghost numbered: { IsTrue (is_number code && is_number vendor) },
    pub ghost listed: { IsTrue (fits_values format values) },
}

/// The head of a definition (RFC 6733 section 3.2).
#[derive(Clone, Copy)]
pub enum Head {
    /// The group of an AVP.
    Group {
        code: u32,
        /// 0 is no vendor.
        vendor: u32,
    },
    /// The requests or the answers of a command.
    Command {
        code: u32,
        request: bool,
        pxy: bool,
        /// `None` is no application.
        app: Option<u32>,
    },
    /// The answers with the E flag, whatever their command code.
    Error {
        pxy: Pxy,
    },
}

/// How often the AVP of a rule occurs (RFC 6733 section 3.2).
#[derive(Clone, Copy)]
pub struct Qual {
    /// The least count. `None` is 1 in braces and 0 elsewhere.
    pub min: Option<u32>,
    /// The greatest count. `None` is no bound.
    pub max: Option<u32>,
}

/// A rule of a definition (RFC 6733 section 3.2).
#[derive(Drop)]
pub struct Rule {
    /// The place in bytes of its first token, a count, a `*` or a bracket.
    pub at: usize,
    pub kind: RuleKind,
    /// `None` is the wildcard: all AVPs that no rule of the definition names.
    pub name: Option<String>,
    /// Without a qualifier the AVP occurs exactly once, in brackets at most once.
    pub qual: Option<Qual>,
    pub ghost named: { IsTrue (is_rule_name kind name) },
    pub ghost counted: { IsTrue (is_qualifier qual) },
}

impl Rule {
    ghost use Rattle.std.specs.Prelude.{◌≡◌};
    ghost use Rattle.dia_ccf.specs.Plain.{plain_rule};
    ghost use Rattle.dia_ccf.specs.CanonicalText.{slot_text};

    /// The name of the rule's AVP, and `AVP` for the wildcard (RFC 6733 section 3.2).
    pub fn slot_name(&self) -> &str
        ensures { result.now ≡ slot_text (plain_rule self.now).name }
    {
        match &self.name {
            Some(name) => name.as_str(),
            None => "AVP",
        }
    }
}

/// A group or a command, with its rules in the order of the text.
#[derive(Drop)]
pub struct Def {
    /// The place in bytes of its first token, a `<` or its name.
    pub at: usize,
    pub name: String,
    pub head: Head,
    pub rules: Vec<Rule>,
    pub ghost named: { IsTrue (is_name (string_bytes name)) },
    pub ghost headed: { IsTrue (is_head head) },
    pub ghost ordered: { IsTrue (fixed_first (map (λ r. r.kind) rules.items)) },
}

/// What a text says, each list in the order of the text.
pub struct Source {
    pub avps: Vec<Decl>,
    pub groups: Vec<Def>,
    pub commands: Vec<Def>,
    pub ghost grouped: { IsTrue (list_all (λ d. is_group d.head) groups.items) },
    pub ghost commanded: { IsTrue (list_all (λ d. not (is_group d.head)) commands.items) },
}

// Written out: for a derived `Drop`, each crate that drops this type proves the drops of all its parts again.
impl Drop for Source {
    fn drop(self) {
        let Source {
            avps: _,
            groups: _,
            commands: _,
        } = self;
    }
}
