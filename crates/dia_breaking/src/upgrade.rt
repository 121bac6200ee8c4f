//! Two dictionaries, with what is the same for all commands.
ghost use Rattle.std.specs.Prelude.{◌≡◌, ◌<◌, [], IfOk, IfSome, IsSome, None, length, map};
ghost use Rattle.std.proofs.Props.{props};
ghost use Rattle.dia_book.specs.Dictionary.{definitions};
ghost use Rattle.dia_valid.specs.Rules.{rules_in};
ghost use Rattle.dia_breaking_ways.specs.Walks.{plain_node};
ghost use Rattle.dia_names.specs.Marked.{marks_in};
ghost use Rattle.dia_names.specs.Names.{marks_of};
ghost use Rattle.dia_breaking.specs.Confirmed.{EachConfirmedBreaks, HaveStandings, left_after};
ghost use Rattle.dia_breaking.specs.Free.{AllAreValid, AreValidWhereFree};
ghost use Rattle.dia_breaking.specs.Headers.{AreApps};
ghost use Rattle.dia_breaking.specs.LevelCosts.{PicksShortest};
ghost use Rattle.dia_breaking.specs.Listing.{AreUnchecked};
ghost use Rattle.dia_breaking.specs.Corrected.{AreValidOnceCorrected, EachHasMessage};
ghost use Rattle.dia_breaking.specs.Nodes.{node_in};
ghost use Rattle.dia_breaking.specs.OwnBreaks.{ReportData};
ghost use Rattle.dia_breaking.specs.Readings.{AreOtherApps};
ghost use Rattle.dia_breaking.specs.Sender.{costs_of, sender_in};
ghost use Rattle.dia_breaking.specs.Sides.{answer_of, sides};
ghost use Rattle.dia_breaking.specs.TheLines.{AreFacts, AreLinesOf, HasTheLines, IsOfHead, facts_by};
ghost use Rattle.dia_breaking.specs.TheMeanings.{AreMeaningsOf, AreMeant, HoldsOfLevels, IsReadAsSent};
ghost use Rattle.dia_breaking.specs.Words.{head_at};

use crate::apps::BothApps;
use crate::exits::{Outlook, outlooks};
use crate::heads::head_of;
use crate::keys::Recording;
use crate::lengths::Lengths;
use crate::line::Breaks;
use crate::nodes::nodes_of;
use crate::own_breaks::{OwnBreaks, own_breaks};
use crate::readings::OtherApps;
use dia_book::{Book, Class, DefId};
use dia_breaking_levels::Line as LevelLine;
use dia_breaking_ways::Node;
use dia_names::AvpNames;
use dia_terms::{Sends, Unknown};
use std::alloc::{AllocError, Global};

/// Messages of A's side that B's side reads.
pub struct Upgrade<'a, A: Book, B: Book> {
    /// A's dictionary, what its side sends, and what its AVPs take.
    pub(crate) lengths: Lengths<'a, A>,
    pub(crate) b: &'a B,
    pub(crate) unknown: Unknown,
    pub(crate) recording: Box<Recording>,
    pub(crate) apps: Box<BothApps>,
    pub(crate) new_apps: Box<OtherApps>,
    /// The AVPs of which there is something to report, in the order of `Recording::own`.
    pub(crate) outlooks: Vec<Outlook>,
    /// The same AVPs as the nodes of a walk.
    pub(crate) nodes: Vec<Node>,
    /// How they break by themselves.
    pub(crate) own: Vec<OwnBreaks>,
    /// What lines call the AVPs.
    pub(crate) names: Box<AvpNames>,
    ghost shortest: { PicksShortest (sender_in lengths) (B.meaning b.now) (costs_of lengths) },
    ghost graph: { map plain_node nodes.items ≡ map node_in outlooks.items },
    ghost known: { ∥ AreFacts (sides (sender_in lengths) (B.meaning b.now) lengths.sends unknown)
        (facts_by lengths.entries.items lengths.others.items recording.value outlooks.items own.items) ∥₁ },
    ghost named: { marks_in names.value ≡ marks_of (sender_in lengths) (B.meaning b.now) },
    ghost first_apps: { AreApps (sender_in lengths) apps.value.first } by { Prim.hlevel props },
    ghost second_apps: { AreApps (B.meaning b.now) apps.value.second } by { Prim.hlevel props },
    ghost others: { AreOtherApps (sender_in lengths) (B.meaning b.now) new_apps.value } by { Prim.hlevel props },
}

// Written out: for a derived `Drop`, each crate that drops this type proves the drops of all its parts again.
impl<A: Book, B: Book> Drop for Upgrade<'_, A, B> {
    fn drop(self) {
        let Upgrade {
            lengths: _,
            b: _,
            unknown: _,
            recording: _,
            apps: _,
            new_apps: _,
            outlooks: _,
            nodes: _,
            own: _,
            names: _,
        } = self;
    }
}

impl<'a, A: Book, B: Book> Upgrade<'a, A, B> {
    ghost use Rattle.dia_breaking.specs.ShownLines.{EachIsShown};
    ghost use Rattle.dia_breaking.specs.Stocks.{IsStock};
    ghost use Rattle.dia_breaking.specs.RecordedMessages.{AreConfirmedWhere};
    ghost use Rattle.dia_breaking.specs.Upgrades.{receiver_of, sender_of, sides_of, stock_of};

    /// Messages of A's side, read by B's side with this policy for unknown AVPs. The only error is an allocation failure.
    pub fn new(
        alloc: Global,
        a: &'a A,
        b: &'a B,
        sends: Sends,
        unknown: Unknown,
    ) -> Result<Self, AllocError>
        ensures sender { IfOk result (λ made. sender_of made ≡ a.now) }
        ensures receiver { IfOk result (λ made. receiver_of made ≡ b.now) }
        ensures sends { IfOk result (λ made. (sides_of made).sends ≡ sends) }
        ensures unknown { IfOk result (λ made. (sides_of made).unknown ≡ unknown) }
    {
        let lengths = Lengths::new(alloc, a, b, sends)?;
        let book = lengths.book;
        let recording = Recording::new(alloc, book, b, lengths.sends, unknown)?;
        let apps = BothApps::new(alloc, book, b)?;
        let new_apps = OtherApps::new(alloc, book, b)?;
        let outlooks = outlooks(alloc, b, &recording, &lengths)?;
        let nodes = nodes_of(alloc, &outlooks)?;
        let own = own_breaks(alloc, b, &recording.own, &lengths, unknown)?;
        let names = AvpNames::new(alloc, book, b)?;
        Ok(Upgrade {
            lengths,
            b,
            unknown,
            recording,
            apps,
            new_apps,
            outlooks,
            nodes,
            own,
            names,
        })
    }

    /// The dictionary of A's side.
    pub fn sender(&self) -> &'a A
        ensures { result.now ≡ sender_of self.now }
    {
        self.lengths.book
    }

    /// All that can break the messages of a command of A. Each message of the command that A's side sends, and that breaks in
    /// none of the ways that the lines report, is valid under B; so where there is no line, each is. A line about the header
    /// hides none of the levels after it: a message whose levels are free of the lines is valid under B once B's definition
    /// accepts its P flag and its application.
    ///
    /// The sites, and the places, causes and lengths of the lines, are unique for the dictionaries, the sender and the policy.
    /// Which data break a format is not.
    ///
    /// Each line has its status. A line without message is undecided; the message of another is checked, unless it has more than
    /// 2^20 bytes, or more than are left. `left` is how many bytes may be checked, and then how many of them weren't. A caller
    /// that goes over many commands begins with [`MOST_CHECKED_TOGETHER`](crate::MOST_CHECKED_TOGETHER), so that the time for
    /// checks is bounded. A line is confirmed exactly where its message (`IsLineMessage`) is checked and breaks as the line
    /// reports (`BreaksAsRecorded`): it has the reported length, it is valid under A, as one of the command, and not under B
    /// (`IsConfirmed`), and, unless the line is about the header, also not once its header is fixed (`BreaksAfter`).
    ///
    /// The message of a confirmed line shows it (`ShowsCause`): at the line's site is a level that breaks B's rules as the line
    /// reports, or one with an AVP whose flags or data are the reported ones, and that B refuses. Where no data are reported, the
    /// level has an AVP of the key whose data B refuses.
    ///
    /// The meanings are the AVPs that B's side reads as another format, though it accepts all of their data (`AreTheMeanings`).
    /// Each key occurs once, at the site to which the shortest way leads. They are no lines, and break nothing; their messages
    /// aren't checked. They are all: each AVP of a level that both sides read, and that B's side reads as another format, is
    /// among them. The only error is an allocation failure.
    pub fn breaks(
        &self,
        alloc: Global,
        command: DefId,
        left: &mut u64,
    ) -> Result<Breaks, AllocError>
        requires { command < length (definitions (sides_of self.now).sender) }
        ensures free { IfOk result (λ breaks. ∥ AreValidWhereFree (sides_of self.now) (answer_of breaks) ∥₁) }
        ensures corrected { IfOk result (λ breaks. ∥ AreValidOnceCorrected (sides_of self.now) (answer_of breaks) ∥₁) }
        ensures all { IfOk result (λ breaks. breaks.lines.items ≡ [] → ∥ AllAreValid (sides_of self.now) command ∥₁) }
        ensures each { IfOk result (λ breaks. EachConfirmedBreaks (sides_of self.now) command breaks.lines.items) }
        ensures each_corrected { IfOk result
            (λ breaks. EachHasMessage (sides_of self.now) command breaks.sites.items breaks.lines.items) }
        ensures standings { IfOk result (λ breaks. HaveStandings left.old breaks.lines.items) }
        ensures exactly { IfOk result (λ breaks. AreConfirmedWhere (sides_of self.now) (stock_of self.now)
            command breaks.sites.items left.old breaks.lines.items) }
        ensures stock { IsStock (sides_of self.now) (stock_of self.now) }
        ensures shown { IfOk result (λ breaks. ∥ EachIsShown (sides_of self.now) (stock_of self.now)
            command breaks.sites.items breaks.lines.items ∥₁) }
        ensures left { IfOk result (λ breaks. left.new ≡ left_after left.old breaks.lines.items) }
        ensures formats { IfOk result (λ breaks. ∥ ReportData (sides_of self.now) breaks.lines.items ∥₁) }
        ensures command { IfOk result (λ breaks. breaks.command ≡ command) }
        ensures head { IfSome (head_at (sides_of self.now).sender command) (λ own. IfOk result (λ breaks. IsOfHead breaks own)) }
        ensures none { head_at (sides_of self.now).sender command ≡ None
            → IfOk result (λ breaks. (breaks.sites.items ≡ []) × (breaks.lines.items ≡ []) × (breaks.meanings.items ≡ [])) }
        ensures lines { IfOk result (λ breaks. IsSome (head_at (sides_of self.now).sender command)
            → HasTheLines (sides_of self.now) (answer_of breaks)) }
        ensures meanings { IfOk result (λ breaks. IsSome (head_at (sides_of self.now).sender command)
            → AreMeaningsOf (sides_of self.now) (answer_of breaks) breaks.meanings.items) }
        ensures all_meanings { IfOk result (λ breaks.
            ∥ HoldsOfLevels (sides_of self.now) (answer_of breaks) (AreMeant (sides_of self.now) breaks.meanings.items) ∥₁) }
        ensures unchecked { IfOk result (λ breaks. AreUnchecked breaks.meanings.items) }
        ensures no_meanings { IfOk result (λ breaks. breaks.meanings.items ≡ []
            → ∥ HoldsOfLevels (sides_of self.now) (answer_of breaks) (IsReadAsSent (sides_of self.now)) ∥₁) }
    {
        match head_of(self.lengths.book, command) {
            Some(head) => self.lines_of(alloc, command, &head, left),
            None => {
                let lines = Vec::new(alloc);
                let meanings = Vec::new(alloc);
                Ok(Breaks {
                    command,
                    code: 0,
                    class: Class::Answer,
                    sites: Vec::new(alloc),
                    lines,
                    meanings,
                })
            }
        }
    }

    /// How the levels of a definition of A break the rules of one of B.
    pub(crate) fn lines_between(
        &self,
        alloc: Global,
        a_def: DefId,
        b_def: DefId,
    ) -> Result<Vec<LevelLine>, AllocError>
        requires first { a_def < length (definitions (sides_of self.now).sender) }
        requires second { b_def < length (definitions (sides_of self.now).receiver) }
        ensures { IfOk result (λ lines. AreLinesOf (costs_of self.now.lengths)
            (rules_in (sides_of self.now).sender a_def) (rules_in (sides_of self.now).receiver b_def) lines.items) }
    {
        self.lengths.lines_between(alloc, a_def, self.b, b_def)
    }
}
