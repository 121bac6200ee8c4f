//! Answers to requests.

ghost use Rattle.std.specs.Prelude.{◌≡◌, ◌≢◌, ◌++◌, ◌<◌, ◌≤◌, ◌/◌, ◌↔◌, Err, IfErr, IfOk, IfSome, IsTrue, List, MatchOption, None, Ok, Some, length, map, slice_index, ℕ};
ghost use Rattle.dia_wire.specs.Lengths.{three_bytes};
ghost use Rattle.dia_wire.specs.Wire.{plain_avp, HasR, IsTooLong, MessageWithZeros};
ghost use Rattle.dia_valid.specs.Valid.{IsValid};
ghost use Rattle.dia_check.specs.Faults.{IsRecorded};
ghost use Rattle.dia_dict.specs.Base.{base};
ghost use Rattle.dia_answer.specs.Dictionaries.{opaque};
ghost use Rattle.dia_answer.specs.Reports.{
  AreTried,
  HasBody,
  HasCopies,
  HasFailed,
  HasFirstForm,
  HasNoForm,
  HasOne,
  IsAnswerBy,
  IsAnswerOf,
  IsAnswered,
  IsFormFor,
  IsListed,
  IsNoAnswer,
  IsProcessed,
  IsTried,
  IsValidBy,
  IsWritten,
  OnMade,
  answer_header,
  attempts_for,
  attempts_in,
  form_class,
  form_dictionary,
  forms_for,
};
ghost use Rattle.dia_wire.specs.Number.{IsField};
ghost use Rattle.dia_answer.specs.Bodies.{AllOf, origin_host, origin_realm, proxy_info, result_code};
ghost use Rattle.dia_answer.specs.Helds.{plains};
ghost use Rattle.dia_answer.specs.Requests.{AreBytes};
ghost use Rattle.dia_answer.specs.declared.forms.NoAnswer.{NoAnswer as AnyNoAnswer};

use crate::contents::{Contents, Extent};
use crate::forms::{Form, Made, NoAnswer};
use crate::held::{self, Held};
use crate::names::Names;
use crate::opaque::Opaque;
use crate::request::header_of;
use crate::stock::Stock;
use dia_book::{Book, Class, DRule};
use dia_check::{Levels, Refusal, Unknown, check};
use dia_dict::base_book;
use dia_wire::{COMMAND_ERROR, COMMAND_PROXIABLE, Header, PutFault, put_message};
use std::alloc::{AllocError, Global};

/// The answer to a request that reports the first fault that `check` finds of it (RFC 6733 sections 6.2, 7.1.5, 7.2 and 7.5),
/// or why it gets none. The bytes are checked here, so no verdict from elsewhere counts.
///
/// The forms are tried in the order of `Form`, the command's own answer for faults of 5xxx alone; the first that makes a
/// valid message is the answer. `valid` is by the dictionary with Failed-AVP as OctetString where it is Grouped, since what
/// is in it has a fault. If none of them makes one, since a message has at most 16,777,212 bytes, they are tried again
/// without Failed-AVP and Error-Message.
///
/// A request whose version or Message Length is wrong is answered, too (section 7.1.5), by its header alone; the caller then
/// closes the connection, since the stream has lost its bounds. The error comes only where memory was refused.
pub fn answer<B: Book>(
    alloc: Global,
    book: &B,
    unknown: Unknown,
    levels: Levels,
    names: &Names<'_>,
    bytes: &[u8],
) -> Result<Result<Made, NoAnswer>, AllocError>
    ensures first_fault { OnMade (λ made. IsRecorded (B.meaning book.now) unknown levels bytes.now made.fault) result }
    ensures valid { OnMade (λ made. IsValidBy (B.meaning book.now) unknown levels made.form made.bytes.items) result }
    ensures processed { OnMade (λ made. IsProcessed bytes.now made.fault.code made.form made.bytes.items) result }
    ensures permanent { OnMade (λ made. IsFormFor made.fault.code made.form) result }
    ensures result_code { OnMade (λ made. HasOne result_code (IsField 4 made.fault.code) made.bytes.items) result }
    ensures origin_host { OnMade (λ made. HasOne origin_host (λ b. b ≡ names.now.host.now) made.bytes.items) result }
    ensures origin_realm { OnMade (λ made. HasOne origin_realm (λ b. b ≡ names.now.realm.now) made.bytes.items) result }
    ensures copies { OnMade (λ made. HasCopies (form_dictionary made.form (B.meaning book.now))
        unknown levels made.fault.reason bytes.now made.bytes.items) result }
    ensures failed_avp { OnMade (HasFailed (B.meaning book.now) bytes.now) result }
    ensures body { OnMade (HasBody (B.meaning book.now) unknown levels names.now.host.now names.now.realm.now bytes.now) result }
    ensures first { OnMade (HasFirstForm (B.meaning book.now) unknown levels
        names.now.host.now names.now.realm.now bytes.now) result }
    ensures too_long { result ≡ Ok (Err NoAnswer.TooLong) → HasNoForm (B.meaning book.now) unknown levels
        names.now.host.now names.now.realm.now bytes.now }
    ensures too_long_only { HasNoForm (B.meaning book.now) unknown levels names.now.host.now names.now.realm.now bytes.now
        → IfOk result (λ found. found ≡ Err NoAnswer.TooLong) }
    ensures answered { IfOk result (IsAnswered (B.meaning book.now) unknown levels
        names.now.host.now names.now.realm.now bytes.now) }
    ensures short { (result ≡ Ok (Err NoAnswer.Short)) ↔ (length bytes.now < 20) }
    ensures answer { (result ≡ Ok (Err NoAnswer.Answer))
        ↔ ((20 ≤ length bytes.now) × (¬ HasR (slice_index bytes.now 4))) }
    ensures no_answer { IfOk result
        (λ found. IfErr found (IsNoAnswer (B.meaning book.now) unknown levels bytes.now)) }
    ensures exact { (why : AnyNoAnswer) → why ≢ NoAnswer.TooLong
        → IsNoAnswer (B.meaning book.now) unknown levels bytes.now why
        → IfOk result (λ found. found ≡ Err why) }
{
    let Some(header) = header_of(bytes) else {
        return Ok(Err(NoAnswer::Short));
    };
    if !header.is_request() {
        return Ok(Err(NoAnswer::Answer));
    }
    match check(alloc, book, unknown, levels, bytes) {
        Ok(_) => Ok(Err(NoAnswer::Valid)),
        Err(Refusal::Fault(fault)) => {
            let contents = Contents::new(
                alloc, book, unknown, levels, *names, header, fault, bytes,
            )?;
            report(book, &contents)
        }
        Err(Refusal::Truncated) => Ok(Err(NoAnswer::Truncated)),
        Err(Refusal::Trailing) => Ok(Err(NoAnswer::Trailing)),
        Err(Refusal::NoMemory) => Err(AllocError),
        Err(Refusal::Spent) => unreachable!(),
    }
}

/// The first answer of the forms that is valid: with Failed-AVP and Error-Message, and else without them.
fn report<B: Book>(book: &B, contents: &Contents<'_>) -> Result<Result<Made, NoAnswer>, AllocError>
    ensures made { OnMade (IsAnswerOf (B.meaning book.now) contents.now) result }
    ensures first { OnMade (λ made. AreTried (B.meaning book.now) contents.now
        (attempts_for contents.now.fault.code) (Some made)) result }
    ensures none { IfOk result (λ found. IfErr found (λ why. (why ≡ NoAnswer.TooLong)
        × AreTried (B.meaning book.now) contents.now (attempts_for contents.now.fault.code) None)) }
{
    if let Some(made) = by_forms(book, contents, Extent::Full)? {
        return Ok(Ok(made));
    }
    match by_forms(book, contents, Extent::Bare)? {
        Some(made) => Ok(Ok(made)),
        None => Ok(Err(NoAnswer::TooLong)),
    }
}

/// The first valid answer of the forms.
fn by_forms<B: Book>(
    book: &B,
    contents: &Contents<'_>,
    extent: Extent,
) -> Result<Option<Made>, AllocError>
    ensures made { IfOk result (λ found. IfSome found (IsAnswerOf (B.meaning book.now) contents.now)) }
    ensures tried { IfOk result (AreTried (B.meaning book.now) contents.now
        (attempts_in extent (forms_for contents.now.fault.code))) }
{
    if is_permanent(contents.fault.code) {
        if let Some(made) = by_command(book, contents, extent, Form::Own)? {
            return Ok(Some(made));
        }
    }
    if let Some(made) = by_command(book, contents, extent, Form::Error)? {
        return Ok(Some(made));
    }
    by_base(contents, extent)
}

/// The answer by the base dictionary, if it is valid.
fn by_base(contents: &Contents<'_>, extent: Extent) -> Result<Option<Made>, AllocError>
    ensures made { IfOk result (λ found. IfSome found
        (λ made. IsAnswerBy base contents.now made × (made.form ≡ Form.Base))) }
    ensures tried { IfOk result (IsTried base contents.now Form.Base extent) }
{
    let book = base_book(contents.alloc)?;
    by_command(&book, contents, extent, Form::Base)
}

/// Whether the code is one of a permanent failure (RFC 6733 section 7.1.5).
fn is_permanent(code: u32) -> bool
    ensures { IsTrue result ↔ (code / 1000 ≡ 5) }
{
    code / 1000 == 5
}

/// The answer of a form, if the dictionary has its command and it is valid.
fn by_command<B: Book>(
    book: &B,
    contents: &Contents<'_>,
    extent: Extent,
    form: Form,
) -> Result<Option<Made>, AllocError>
    requires { IsFormFor contents.now.fault.code form }
    ensures made { IfOk result (λ found. IfSome found
        (λ made. IsAnswerBy (B.meaning book.now) contents.now made × (made.form ≡ form))) }
    ensures tried { IfOk result (IsTried (B.meaning book.now) contents.now form extent) }
{
    let header = &contents.header;
    let Some(def) = book.select(header.code, class_of(form), header.app) else {
        return Ok(None);
    };
    let rules = &book.def(def).rules;
    let Some(bytes) = by_rules(book, form, rules, contents, extent)? else {
        return Ok(None);
    };
    let fault = contents.fault;
    Ok(Some(Made { bytes, form, fault }))
}

fn class_of(form: Form) -> Class
    ensures { result ≡ form_class form }
{
    match form {
        Form::Own => Class::Answer,
        Form::Error | Form::Base => Class::Error,
    }
}

/// The answer by the rules of a command, if it is valid.
fn by_rules<B: Book>(
    book: &B,
    form: Form,
    rules: &[DRule],
    contents: &Contents<'_>,
    extent: Extent,
) -> Result<Option<Vec<u8>>, AllocError>
    requires { 0 < length (B.meaning book.now).commands }
    ensures { IfOk result (λ found. MatchOption found
        ((bytes : List ℕ) → ¬ IsWritten (B.meaning book.now) form rules.now extent contents.now bytes)
        (λ bytes. IsWritten (B.meaning book.now) form rules.now extent contents.now bytes.items)) }
{
    let stock = Stock::new(book, form, rules, contents, extent)?;
    if !may_be_taken(form, rules, &stock) {
        return Ok(None);
    }
    let avps = stock.in_order(contents.alloc, rules)?;
    let header = header_for(&contents.header, form);
    match written(contents.alloc, &header, &avps)? {
        Some(bytes) => if_valid(book, contents, bytes),
        None => Ok(None),
    }
}

/// Whether a form with these AVPs is taken: in the command's own answer each but Error-Message is listed by a rule.
fn may_be_taken(form: Form, rules: &[DRule], stock: &Stock<'_>) -> bool
    requires { AllOf proxy_info (plains stock.now.proxies.items) }
    ensures { IsTrue result ↔ IsListed form rules.now (plains stock.now.few.items ++ plains stock.now.proxies.items) }
{
    match form {
        Form::Own => stock.is_listed(rules),
        Form::Error | Form::Base => true,
    }
}

/// The header of an answer (RFC 6733 section 6.2).
fn header_for(request: &Header, form: Form) -> Header
    ensures { result ≡ answer_header request.now form }
{
    let error = match form {
        Form::Own => 0,
        Form::Error | Form::Base => COMMAND_ERROR,
    };
    Header {
        flags: request.flags & COMMAND_PROXIABLE | error,
        code: request.code,
        app: request.app,
        hop: request.hop,
        e2e: request.e2e,
    }
}

/// The message of these AVPs; none where it would be too long.
fn written(alloc: Global, header: &Header, held: &[Held<'_>]) -> Result<Option<Vec<u8>>, AllocError>
    requires fits { header.now.code < three_bytes }
    ensures message { IfOk result (λ found. MatchOption found (IsTooLong (plains held.now))
        (λ bytes. (¬ IsTooLong (plains held.now)) × MessageWithZeros header.now (plains held.now) bytes.items)) }
    ensures bytes { IfOk result (λ found. IfSome found (λ bytes. AreBytes bytes.items)) }
{
    let avps = held::written(alloc, held)?;
    let mut bytes = Vec::new(alloc);
    match put_message(&mut bytes, header, &avps) {
        Ok(()) => {
            each_is_a_byte(&bytes);
            Ok(Some(bytes))
        }
        Err(PutFault::TooLong) => Ok(None),
        Err(PutFault::NoMemory) => Err(AllocError),
    }
}

/// Does nothing: its contract is what the type of the bytes says.
fn each_is_a_byte(bytes: &[u8])
    ensures { AreBytes bytes.now }
{
    let _count = bytes.len();
}

/// These bytes, if they are a valid message of the dictionary with Failed-AVP as OctetString.
fn if_valid<B: Book>(
    book: &B,
    contents: &Contents<'_>,
    bytes: Vec<u8>,
) -> Result<Option<Vec<u8>>, AllocError>
    ensures { IfOk result (λ found. MatchOption found
        (¬ IsValid (opaque (B.meaning book.now)) contents.now.unknown contents.now.levels bytes.items)
        (λ same. (same.items ≡ bytes.items)
        × IsValid (opaque (B.meaning book.now)) contents.now.unknown contents.now.levels bytes.items)) }
{
    let opaque = Opaque::new(book);
    match check(
        contents.alloc,
        &opaque,
        contents.unknown,
        contents.levels,
        &bytes,
    ) {
        Ok(_) => Ok(Some(bytes)),
        Err(Refusal::Fault(_)) => Ok(None),
        Err(Refusal::Truncated) => Ok(None),
        Err(Refusal::Trailing) => Ok(None),
        Err(Refusal::NoMemory) => Err(AllocError),
        Err(Refusal::Spent) => unreachable!(),
    }
}
