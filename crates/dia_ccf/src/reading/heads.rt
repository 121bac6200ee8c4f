//! Heads of definitions.

use super::Reader;
use super::refusal::Refusal;
use crate::lexer::Sign;
use crate::limits::MAX_COMMAND_CODE;
use crate::source::Head;
use dia_terms::Pxy;

impl<'a> Reader<'a> {
    ghost use Rattle.std.specs.Prelude.{◌≡◌, ◌<◌, ◌≤◌, ℕ, List, ◌||◌, false};
    ghost use Rattle.std.specs.Prelude.{cond, codes, map, IfOk, OnOk, IsTrue};
    ghost use Rattle.std.specs.Char.{to_ascii_lowercase};
    ghost use Rattle.dia_ccf.specs.Names.{is_head};
    ghost use Rattle.dia_ccf.specs.Plain.{PlainSource};
    ghost use Rattle.dia_ccf.specs.Machine.{In_head, Head_word, Avp_colon};
    ghost use Rattle.dia_ccf.specs.Machine.{Diameter_colon, Command_code, Group_code};
    ghost use Rattle.dia_ccf.specs.Machine.{Error_word, Error_flags, Error_either};
    ghost use Rattle.dia_ccf.specs.Machine.{Head_end, is_keyword, is_number};
    ghost use Rattle.dia_ccf.specs.ReaderFunctions.{Flags_read, Leads, course, begins_with, left};
    ghost use Rattle.dia_ccf.specs.ReaderFunctions.{Derived, header_words, group_of};
    ghost use Rattle.dia_ccf.specs.ReaderFunctions.{command_of, error_of, in_brackets};
    ghost use Rattle.dia_ccf.specs.Grammar.{head, error_proxy};

    /// A head up to its `>`, where its `<` was read.
    pub(super) fn head(&mut self) -> Result<Head, Refusal>
        ensures read { (done : PlainSource) (name : List ℕ)
            → Leads (course (done, In_head name Head_word) self.old)
            (λ head. (done, In_head name (Head_end head))) result self.new }
        ensures sound { IfOk result (λ head. IsTrue (is_head head)) }
        ensures derived { IfOk result (λ found. Derived (head found) self.old self.new) }
        ensures farther { OnOk result (self.old.taken ≤ self.new.taken) }
    {
        if self.is_avp_header()? {
            self.expect(Sign::Colon)?;
            return self.group();
        }
        self.expect(Sign::Colon)?;
        if self.takes_keyword("code") {
            self.error()
        } else {
            self.command()
        }
    }

    /// The words `AVP Header` or `Diameter Header`: whether it is the first.
    fn is_avp_header(&mut self) -> Result<bool, Refusal>
        ensures read { (done : PlainSource) (name : List ℕ)
            → Leads (course (done, In_head name Head_word) self.old)
            (λ avp. (done, In_head name (cond avp Avp_colon Diameter_colon))) result self.new }
        ensures derived { IfOk result (λ avp. Derived (header_words avp) self.old self.new) }
        ensures farther { OnOk result (self.old.taken ≤ self.new.taken) }
    {
        if self.takes_keyword("avp") {
            self.expect_keyword("header")?;
            return Ok(true);
        }
        if self.takes_keyword("avp-header") {
            return Ok(true);
        }
        if self.takes_keyword("diameter") {
            self.expect_keyword("header")?;
        } else {
            self.expect_keyword("diameter-header")?;
        }
        Ok(false)
    }

    /// The numbers of a group.
    fn group(&mut self) -> Result<Head, Refusal>
        ensures read { (done : PlainSource) (name : List ℕ)
            → Leads (course (done, In_head name Group_code) self.old)
            (λ head. (done, In_head name (Head_end head))) result self.new }
        ensures sound { IfOk result (λ head. IsTrue (is_head head)) }
        ensures derived { IfOk result (λ head. Derived (group_of head) self.old self.new) }
        ensures farther { OnOk result (self.old.taken ≤ self.new.taken) }
    {
        let code = self.number(0, u32::MAX)?;
        let comma = self.takes(Sign::Comma);
        if !self.wants_number(comma) {
            return Ok(Head::Group { code, vendor: 0 });
        }
        let vendor = self.number(0, u32::MAX)?;
        Ok(Head::Group { code, vendor })
    }

    /// The numbers and flags of a command.
    fn command(&mut self) -> Result<Head, Refusal>
        ensures read { (done : PlainSource) (name : List ℕ)
            → begins_with (is_keyword (codes "code")) (left self.old) ≡ false
            → Leads (course (done, In_head name Command_code) self.old)
            (λ head. (done, In_head name (Head_end head))) result self.new }
        ensures sound { IfOk result (λ head. IsTrue (is_head head)) }
        ensures derived { IfOk result (λ head. Derived (command_of head) self.old self.new) }
        ensures farther { OnOk result (self.old.taken ≤ self.new.taken) }
    {
        let code = self.number(0, MAX_COMMAND_CODE)?;
        let comma = self.takes(Sign::Comma);
        let (request, comma) = self.flag("req", comma);
        let (pxy, comma) = self.flag("pxy", comma);
        if !self.wants_number(comma) {
            return Ok(Head::Command {
                code,
                request,
                pxy,
                app: None,
            });
        }
        let app = self.number(0, u32::MAX)?;
        Ok(Head::Command {
            code,
            request,
            pxy,
            app: Some(app),
        })
    }

    /// Whether a number is to be read: one is ahead, or a comma was read, which a number has to follow.
    fn wants_number(&self, comma: bool) -> bool
        ensures { result ≡ (comma || begins_with is_number (left self.now)) }
    {
        comma || self.is_at_number()
    }

    /// Takes the flag and a comma after it, where they are ahead. Returns whether the flag was there, and whether a comma
    /// was the last token that was read.
    fn flag(&mut self, word: &str, comma: bool) -> (bool, bool)
        ensures read { Flags_read (map to_ascii_lowercase word.now) comma self.old result self.new }
        ensures farther { self.old.taken ≤ self.new.taken }
    {
        if self.takes_keyword(word) {
            let following = self.takes(Sign::Comma);
            return (true, following);
        }
        (false, comma)
    }

    /// The flags of the head for errors, where its `code` was read.
    fn error(&mut self) -> Result<Head, Refusal>
        ensures read { (done : PlainSource) (name : List ℕ)
            → Leads (course (done, In_head name (Error_word false)) self.old)
            (λ head. (done, In_head name (Head_end head))) result self.new }
        ensures sound { IfOk result (λ head. IsTrue (is_head head)) }
        ensures derived { IfOk result (λ head. Derived (error_of head) self.old self.new) }
        ensures farther { OnOk result (self.old.taken ≤ self.new.taken) }
    {
        self.takes(Sign::Comma);
        self.expect_keyword("err")?;
        let pxy = self.error_proxy()?;
        Ok(Head::Error { pxy })
    }

    /// The proxiable flag after `ERR`.
    fn error_proxy(&mut self) -> Result<Pxy, Refusal>
        ensures read { (done : PlainSource) (name : List ℕ)
            → Leads (course (done, In_head name (Error_flags false)) self.old)
            (λ pxy. (done, In_head name (Head_end (Head.Error pxy)))) result self.new }
        ensures derived { IfOk result (λ pxy. Derived (error_proxy pxy) self.old self.new) }
        ensures farther { OnOk result (self.old.taken ≤ self.new.taken) }
    {
        if self.takes(Sign::OpenBracket) {
            return self.proxy_in_brackets();
        }
        if self.takes(Sign::Comma) {
            self.expect_keyword("pxy")?;
            return Ok(Pxy::Set);
        }
        if self.takes_keyword("pxy") {
            return Ok(Pxy::Set);
        }
        Ok(Pxy::Clear)
    }

    /// The proxiable flag after its `[`.
    fn proxy_in_brackets(&mut self) -> Result<Pxy, Refusal>
        ensures read { (done : PlainSource) (name : List ℕ)
            → Leads (course (done, In_head name (Error_either false)) self.old)
            (λ pxy. (done, In_head name (Head_end (Head.Error pxy)))) result self.new }
        ensures derived { IfOk result (λ pxy. Derived (in_brackets pxy) self.old self.new) }
        ensures farther { OnOk result (self.old.taken ≤ self.new.taken) }
    {
        self.takes(Sign::Comma);
        self.expect_keyword("pxy")?;
        self.expect(Sign::CloseBracket)?;
        Ok(Pxy::Either)
    }
}
