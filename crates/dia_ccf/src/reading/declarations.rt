//! Declarations of AVPs.
use super::Reader;
use super::refusal::Refusal;
use crate::lexer::{Sign, Token};
use crate::limits::MAX_VALUE;
use crate::source::Decl;
use dia_terms::{FormatName, MRule};

impl<'a> Reader<'a> {
    ghost use Rattle.std.specs.Prelude.{◌≡◌, ◌<◌, ◌≤◌, ℕ, ◌++◌, [], ◌∷◌, List};
    ghost use Rattle.std.specs.Prelude.{◌&&◌, false, not, IfOk, OnOk, IsTrue};
    ghost use Rattle.dia_ccf.specs.Grammar.{◌then◌, one, each, vendor, range, values};
    ghost use Rattle.std.specs.Option.{option_map};
    ghost use Rattle.std.specs.List.{list_all};
    ghost use Rattle.dia_ccf.specs.Names.{fits_values, is_number, is_range};
    ghost use Rattle.dia_ccf.specs.Tokens.{Close_parenthesis};
    ghost use Rattle.dia_ccf.specs.Plain.{PlainDecl, PlainSource, plain_decl};
    ghost use Rattle.dia_ccf.specs.Machine.{Between, Decl_name, Decl_vendor};
    ghost use Rattle.dia_ccf.specs.Machine.{Decl_format, Decl_values, In_values};
    ghost use Rattle.dia_ccf.specs.Machine.{add_decl, with_values, format_at};
    ghost use Rattle.dia_ccf.specs.Machine.{rule_at, is_none, same_sign};
    ghost use Rattle.dia_ccf.specs.ReaderFunctions.{Accepts, Leads, course, begins_with, left};
    ghost use Rattle.dia_ccf.specs.ReaderFunctions.{Derived, declaring};

    /// A declaration, whose `%avp` is at the place and was read.
    pub(super) fn declaration(&mut self, at: usize) -> Result<Decl, Refusal>
        ensures read { (done : PlainSource)
            → Leads (course (done, Decl_name) self.old)
            (λ d. (add_decl done (plain_decl d), Between)) result self.new }
        ensures placed { IfOk result (λ d. d.at ≡ at) }
        ensures derived { IfOk result (λ d. Derived (declaring (plain_decl d)) self.old self.new) }
        ensures farther { OnOk result (self.old.taken ≤ self.new.taken) }
    {
        let name = self.name()?;
        let code = self.number(0, u32::MAX)?;
        let vendor = self.vendor()?;
        let format = self.format()?;
        let rule = self.m_rule()?;
        let values = self.values(format)?;
        Ok(Decl {
            at,
            name,
            code,
            vendor,
            format,
            values,
            rule,
        })
    }

    /// The vendor, which is 0 where none is written.
    fn vendor(&mut self) -> Result<u32, Refusal>
        ensures read { (done : PlainSource) (name : List ℕ) (code : ℕ)
            → Leads (course (done, Decl_vendor name code) self.old)
            (λ vendor. (done, Decl_format name code vendor)) result self.new }
        ensures farther { OnOk result (self.old.taken ≤ self.new.taken) }
        ensures small { IfOk result (λ vendor. IsTrue (is_number vendor)) }
        ensures derived { IfOk result (λ found. Derived (vendor found) self.old self.new) }
    {
        if self.takes_word("vendor") {
            self.number(0, u32::MAX)
        } else {
            Ok(0)
        }
    }

    fn format(&mut self) -> Result<FormatName, Refusal>
        ensures { Accepts false false format_at (λ format. format) self.old result self.new }
    {
        if let Some(Token::Name(word)) = self.token {
            if let Some(format) = FormatName::named(word) {
                self.advance();
                return Ok(format);
            }
        }
        Err(Refusal::Syntax)
    }

    fn m_rule(&mut self) -> Result<MRule, Refusal>
        ensures { Accepts false false rule_at (λ rule. rule) self.old result self.new }
    {
        if self.takes_word("must") {
            Ok(MRule::Must)
        } else if self.takes_word("mustnot") {
            Ok(MRule::MustNot)
        } else if self.takes_word("any") {
            Ok(MRule::Any)
        } else {
            Err(Refusal::Syntax)
        }
    }

    /// The list of values, which follows only Enumerated.
    fn values(&mut self, format: FormatName) -> Result<Option<Vec<(u32, u32)>>, Refusal>
        ensures read { (done : PlainSource) (d : PlainDecl) → d.format ≡ format → d.values ≡ None
            → Leads (course (done, Decl_values d) self.old)
            (λ values. (
              add_decl done (record d { values = option_map (λ v. v.items) values }),
              Between,
            )) result self.new }
        ensures listed { IfOk result (λ values. IsTrue (fits_values format values)) }
        ensures derived { IfOk result (λ found. Derived
            (values format (option_map (λ v. v.items) found)) self.old self.new) }
        ensures farther { OnOk result (self.old.taken ≤ self.new.taken) }
    {
        if format == FormatName::Enumerated && self.takes(Sign::OpenParenthesis) {
            let ranges = self.ranges()?;
            return Ok(Some(ranges));
        }
        Ok(None)
    }

    /// Ranges of values up to the closing parenthesis.
    fn ranges(&mut self) -> Result<Vec<(u32, u32)>, Refusal>
        ensures read { (done : PlainSource) (d : PlainDecl)
            → Leads (course (done, In_values d []) self.old)
            (λ ranges. (add_decl done (with_values d ranges.items), Between)) result self.new }
        ensures some { IfOk result (λ ranges. is_none ranges.items ≡ false) }
        ensures listed { IfOk result (λ ranges. IsTrue (list_all is_range ranges.items)) }
        ensures derived { IfOk result (λ found. Derived
            (each range found.items then one Close_parenthesis) self.old self.new) }
        ensures farther { OnOk result (self.old.taken ≤ self.new.taken) }
    {
        let mut ranges = Vec::new(self.alloc);
        loop {
            let range = self.range()?;
            ranges.push(range)?;
            if self.takes(Sign::CloseParenthesis) {
                return Ok(ranges);
            }
        }
    }

    /// A range, or a number alone, which is a range of one.
    fn range(&mut self) -> Result<(u32, u32), Refusal>
        ensures read { (done : PlainSource) (d : PlainDecl) (ranges : List (ℕ × ℕ))
            → (not (is_none ranges) && begins_with (same_sign Close_parenthesis) (left self.old))
            ≡ false
            → Leads (course (done, In_values d ranges) self.old)
            (λ range. (done, In_values d (ranges ++ range ∷ []))) result self.new }
        ensures listed { IfOk result (λ range. IsTrue (is_range range)) }
        ensures derived { IfOk result (λ found. Derived (range found) self.old self.new) }
        ensures farther { OnOk result (self.old.taken < self.new.taken) }
    {
        let low = self.number(0, MAX_VALUE)?;
        if self.takes(Sign::Dots) {
            let high = self.number(low, MAX_VALUE)?;
            return Ok((low, high));
        }
        Ok((low, low))
    }
}
