//! What definitions are for, and where keys belong among their rules.
ghost use Rattle.std.specs.Prelude.{◌≡◌, ◌<◌, IfOk, length, position, string_bytes};
ghost use Rattle.dia_book.specs.Dictionary.{lists_key, plain_definition};

use crate::definition::{Class, DRule, DefHead, Definition, Slot};
use crate::shape::Shape;
use dia_terms::RuleKind;
use dia_wire::Key;
use std::alloc::{AllocError, Global};

impl DefHead {
    ghost use Rattle.dia_book.specs.Dictionary.{is_command, has_class};

    /// Whether this is the header for a code and a class, and for this application or for none.
    pub fn is_command(&self, code: u32, class: Class, app: Option<u32>) -> bool
        ensures { result ≡ is_command code class app self.now }
    {
        match self {
            DefHead::Group(_) => false,
            DefHead::Command {
                code: own_code,
                class: own_class,
                app: own_app,
                ..
            } => code == *own_code && class == *own_class && app == *own_app,
            DefHead::Error { .. } => class == Class::Error,
        }
    }

    /// Whether this is a header for a code and a class, of whatever application.
    pub fn has_class(&self, code: u32, class: Class) -> bool
        ensures { result ≡ has_class code class self.now }
    {
        match self {
            DefHead::Group(_) => false,
            DefHead::Command {
                code: own_code,
                class: own_class,
                ..
            } => code == *own_code && class == *own_class,
            DefHead::Error { .. } => class == Class::Error,
        }
    }
}

impl DRule {
    /// Whether the rule is for this key.
    fn lists(&self, key: Key) -> bool
        ensures { result ≡ lists_key key self.now }
    {
        self.key == Some(key)
    }
}

/// A copy says the same.
impl Clone for Definition {
    ghost is_clone = { λ old new. plain_definition new ≡ plain_definition old };

    fn clone(&self) -> Result<Definition, AllocError> {
        let name = self.name.clone()?;
        let rules = self.rules.clone()?;
        let shape = self.shape.clone()?;
        Ok(Definition {
            name,
            head: self.head,
            rules,
            shape,
        })
    }
}

impl Definition {
    ghost use Rattle.dia_book.specs.Dictionary.{slot_at, slot_of};

    /// A definition of these parts. The error comes only where memory was refused.
    pub fn new(
        alloc: Global,
        name: String,
        head: DefHead,
        rules: Vec<DRule>,
    ) -> Result<Self, AllocError>
        ensures { IfOk result (λ made. plain_definition made
            ≡ record { name = string_bytes name; head = head; rules = rules.items }) }
    {
        let shape = Shape::of(alloc, &rules)?;
        Ok(Definition {
            name,
            head,
            rules,
            shape,
        })
    }

    /// Where a key belongs among the rules.
    pub fn slot(&self, key: Key) -> Slot
        ensures { result ≡ slot_of self.now.rules.items key }
    {
        match place_of_rule(&self.rules, key) {
            Some(index) => self.slot_at(index),
            None => Slot::Unlisted,
        }
    }

    /// The slot of the rule at a place.
    pub fn slot_at(&self, index: usize) -> Slot
        requires { index < length self.now.rules.items }
        ensures { result ≡ slot_at self.now.rules.items index }
    {
        match self.rules[index].kind {
            RuleKind::Fixed => Slot::Fixed(index),
            RuleKind::Required | RuleKind::Optional => Slot::Loose(index),
        }
    }
}

/// The place of the first rule for this key.
fn place_of_rule(rules: &[DRule], key: Key) -> Option<usize>
    ensures { result ≡ position (lists_key key) rules.now }
{
    rules.iter().position(|rule| rule.lists(key))
}
