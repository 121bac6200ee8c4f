//! The words of a line.
ghost use Rattle.std.specs.Prelude.{◌≡◌, ◌<◌, ◌++◌, OnErr, OnOk, IfOk, codes, length, slice_get, [], string_bytes};
ghost use Rattle.std.specs.Option.{option_map_or};
ghost use Rattle.dia_book.specs.Dictionary.{definitions};
ghost use Rattle.dia_breaking.specs.Upgrades.{other_length_of, sides_of};
ghost use Rattle.dia_breaking.specs.Words.{application_text, avp_name, cause_text, definition_name};
ghost use Rattle.dia_breaking.specs.Words.{flag_word, format_in, format_text, formats_text, m_bit_text, meaning_text};
ghost use Rattle.dia_breaking.specs.Words.{is_command, path_text, path_to, place_text, spot};
ghost use Rattle.dia_breaking.specs.Words.{refused_application, standing_text, subject_name};
ghost use Rattle.dia_breaking.specs.Words.{Writes, unknown_detail, words_of};

use crate::books::format_of;
use crate::format_words::{push_format_detail, push_formats};
use crate::line::{Breaks, Cause, Line, Place, Site, Standing};
use crate::upgrade::Upgrade;
use dia_book::{Book, DefId, Key};
use dia_terms::Unknown;
use std::alloc::{AllocError, Global};

impl<'a, A: Book, B: Book> Upgrade<'a, A, B> {
    /// Adds the words of a line of a command, as `T/G: missing X: 0..1 sent, 1 accepted`; nothing, where A has no such command.
    /// The only error is an allocation failure; nothing was added then.
    pub fn push_words(
        &self,
        alloc: Global,
        out: &mut String,
        breaks: &Breaks,
        line: &Line,
    ) -> Result<(), AllocError>
        ensures words { OnOk result (Writes out.old out.new
            (words_of (sides_of self.now) (other_length_of self.now) breaks.now.command breaks.now.sites.items line.now)) }
        ensures unchanged { OnErr result (string_bytes out.new ≡ string_bytes out.old) }
    {
        let words = self.words(alloc, breaks, line)?;
        out.push_str(words.as_str())
    }

    fn words(&self, alloc: Global, breaks: &Breaks, line: &Line) -> Result<String, AllocError>
        ensures { IfOk result (λ words. string_bytes words ≡ words_of
            (sides_of self.now) (other_length_of self.now) breaks.now.command breaks.now.sites.items line.now) }
    {
        let mut out = String::new(alloc);
        if is_command(self.lengths.book, breaks.command) {
            let path = breaks.path(alloc, line.site)?;
            self.push_path(&mut out, breaks.command, &path)?;
            push_standing(&mut out, line.standing)?;
            self.push_cause(alloc, &mut out, breaks, line, &path)?;
        }
        Ok(out)
    }

    fn push_path(&self, out: &mut String, command: DefId, path: &[Site]) -> Result<(), AllocError>
        requires { command < length (definitions (sides_of self.now).sender) }
        ensures { OnOk result (Writes out.old out.new (path_text (sides_of self.now) command path.now)) }
    {
        for site in path {
            self.push_place(out, command, site.place)?;
        }
        Ok(())
    }

    fn push_place(&self, out: &mut String, command: DefId, place: Place) -> Result<(), AllocError>
        requires { command < length (definitions (sides_of self.now).sender) }
        ensures { OnOk result (Writes out.old out.new (place_text (sides_of self.now) command place)) }
    {
        match place {
            Place::Command {
                read_as,
                is_recorded,
                ..
            } => {
                out.push_str(command_name(self.lengths.book, command))?;
                push_application(out, is_recorded, read_as)
            }
            Place::Group { key, .. } => {
                out.push_str("/")?;
                out.push_str(self.avp_name(key))
            }
        }
    }

    /// The name in A, else in B, or `CODE:VENDOR` where A has another AVP of that name, else `AVP`.
    fn avp_name(&self, key: Key) -> &str
        ensures { result.now ≡ avp_name (sides_of self.now) key }
    {
        self.names.name(self.lengths.book, self.b, key)
    }

    /// The name of an AVP, or `AVP` where the wildcard counts.
    pub(crate) fn subject_name(&self, key: Option<Key>) -> &str
        ensures { result.now ≡ subject_name (sides_of self.now) key }
    {
        match key {
            Some(key) => self.avp_name(key),
            None => "AVP",
        }
    }

    fn push_cause(
        &self,
        alloc: Global,
        out: &mut String,
        breaks: &Breaks,
        line: &Line,
        path: &[Site],
    ) -> Result<(), AllocError>
        requires within { breaks.now.command < length (definitions (sides_of self.now).sender) }
        requires path { path.now ≡ path_to breaks.now.sites.items line.now.site }
        ensures { OnOk result (Writes out.old out.new (cause_text (sides_of self.now)
            (other_length_of self.now) (spot breaks.now.command breaks.now.sites.items line.now.site) line.now.cause)) }
    {
        match line.cause {
            Cause::Command => out.push_str("command -: not accepted"),
            Cause::Application => push_refused(out, path),
            Cause::Proxiable { set } => push_proxiable(out, set),
            Cause::Level(level) => {
                let site = site_at(&breaks.sites, line.site);
                self.push_level(out, breaks.command, site, &level)
            }
            Cause::Unknown { key, m } => self.push_unknown(out, key, m),
            Cause::MBit { key, m } => self.push_m_bit(out, key, m),
            Cause::Format { key, .. } => self.push_format(alloc, out, key),
            Cause::LevelAsLeaf { key } => self.push_level_as_leaf(out, key),
            Cause::Meaning { key } => self.push_meaning(out, key),
        }
    }

    fn push_unknown(&self, out: &mut String, key: Key, m: bool) -> Result<(), AllocError>
        ensures { OnOk result (Writes out.old out.new
            (codes "unknown " ++ avp_name (sides_of self.now) key ++ codes ": " ++ unknown_detail self.now.unknown m)) }
    {
        let name = self.avp_name(key);
        let detail = unknown_detail(self.unknown, m);
        write!(out, "unknown {name}: {detail}")
    }

    fn push_m_bit(&self, out: &mut String, key: Key, m: bool) -> Result<(), AllocError>
        ensures { OnOk result (Writes out.old out.new (m_bit_text (sides_of self.now) key m)) }
    {
        let name = self.avp_name(key);
        let sent = flag_word(m);
        let accepted = flag_word(!m);
        write!(out, "m-bit {name}: M {sent} sent, M {accepted} accepted")
    }

    fn push_format(&self, alloc: Global, out: &mut String, key: Key) -> Result<(), AllocError>
        ensures { OnOk result (Writes out.old out.new (format_text (sides_of self.now) key)) }
    {
        let name = self.avp_name(key);
        write!(out, "format {name}: ")?;
        push_format_detail(
            alloc,
            out,
            format_of(self.lengths.book, key),
            format_of(self.b, key),
        )
    }

    fn push_meaning(&self, out: &mut String, key: Key) -> Result<(), AllocError>
        ensures { OnOk result (Writes out.old out.new (meaning_text (sides_of self.now) key)) }
    {
        let name = self.avp_name(key);
        write!(out, "meaning {name}: ")?;
        push_formats(
            out,
            format_of(self.lengths.book, key),
            format_of(self.b, key),
            " read",
        )
    }

    fn push_level_as_leaf(&self, out: &mut String, key: Key) -> Result<(), AllocError>
        ensures { OnOk result (Writes out.old out.new (avp_name (sides_of self.now) key ++ codes ": "
            ++ formats_text (format_in (sides_of self.now).sender key) (format_in (sides_of self.now).receiver key))) }
    {
        let name = self.avp_name(key);
        write!(out, "{name}: ")?;
        push_formats(
            out,
            format_of(self.lengths.book, key),
            format_of(self.b, key),
            " accepted",
        )
    }
}

/// Whether the number is that of a command of the dictionary.
pub(crate) fn is_command<B: Book>(book: &B, number: DefId) -> bool
    ensures { result ≡ is_command (B.meaning book.now) number }
{
    let count = book.commands();
    if count == 0 {
        return false;
    }
    let first = book.command_at(0).index();
    first <= number.index() && number.index() - first < count
}

pub(crate) fn command_name<B: Book>(book: &B, command: DefId) -> &str
    requires { command < length (definitions (B.meaning book.now)) }
    ensures { result.now ≡ definition_name (B.meaning book.now) command }
{
    book.def(command).name.as_str()
}

pub(crate) fn site_at(sites: &[Site], site: usize) -> Option<Site>
    ensures { result ≡ slice_get sites.now site }
{
    sites.get(site).copied()
}

fn push_proxiable(out: &mut String, set: bool) -> Result<(), AllocError>
    ensures { OnOk result (Writes out.old out.new (codes "proxiable -: P " ++ flag_word set ++ codes " sent")) }
{
    out.push_str("proxiable -: P ")?;
    out.push_str(flag_word(set))?;
    out.push_str(" sent")
}

fn push_application(out: &mut String, is_recorded: bool, app: u32) -> Result<(), AllocError>
    ensures { OnOk result (Writes out.old out.new (application_text is_recorded app)) }
{
    if is_recorded {
        write!(out, "[application {app}]")
    } else {
        Ok(())
    }
}

fn push_standing(out: &mut String, standing: Standing) -> Result<(), AllocError>
    ensures { OnOk result (Writes out.old out.new (codes ": " ++ standing_text standing)) }
{
    out.push_str(": ")?;
    match standing {
        Standing::Confirmed | Standing::Unchecked => Ok(()),
        Standing::Undecided => out.push_str("undecided "),
    }
}

/// Adds that the application of the command's site, with which the path begins, is refused.
fn push_refused(out: &mut String, path: &[Site]) -> Result<(), AllocError>
    ensures { OnOk result (Writes out.old out.new
        (option_map_or (λ site. refused_application site.place) (slice_get path.now 0) [])) }
{
    match path.first() {
        Some(site) => push_refused_at(out, site.place),
        None => Ok(()),
    }
}

fn push_refused_at(out: &mut String, place: Place) -> Result<(), AllocError>
    ensures { OnOk result (Writes out.old out.new (refused_application place)) }
{
    match place {
        Place::Command { app, .. } => write!(out, "application {app}: not accepted"),
        Place::Group { .. } => Ok(()),
    }
}

fn unknown_detail(unknown: Unknown, m: bool) -> &'static str
    ensures { result.now ≡ unknown_detail unknown m }
{
    match unknown {
        Unknown::Kept => {
            if m {
                "M set sent, not known"
            } else {
                "sent, not known"
            }
        }
        Unknown::Refused => "sent, not known",
    }
}

pub(crate) fn flag_word(set: bool) -> &'static str
    ensures { result.now ≡ flag_word set }
{
    if set { "set" } else { "clear" }
}
