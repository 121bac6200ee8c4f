//! What an answer is made of, whatever its form.

ghost use Rattle.std.specs.Prelude.{◌≡◌, ◌<◌, ◌≤◌, IfOk, Some, length, string_bytes};
ghost use Rattle.std.specs.Option.{option_map};
ghost use Rattle.byteorder.specs.Endian.{big_bytes};
ghost use Rattle.dia_wire.specs.Lengths.{header_length, three_bytes};
ghost use Rattle.dia_run.specs.Texts.{line};
ghost use Rattle.dia_run.specs.Verdict.{fault_line};
ghost use Rattle.dia_answer.specs.Contents.{full};
ghost use Rattle.dia_answer.specs.Helds.{plains};
ghost use Rattle.dia_answer.specs.Failed.{IsFailed};
ghost use Rattle.dia_answer.specs.Requests.{AreRequestAvps};

use crate::failed::failed_data;
use crate::held::Held;
use crate::line::line_of;
use crate::names::Names;
use crate::request::avps_of;
use byteorder::{BigEndian, ByteOrder};
use dia_book::Book;
use dia_check::{Fault, Levels, Unknown};
use dia_wire::Header;
use std::alloc::{AllocError, Global};

/// Whether an answer has Error-Message and Failed-AVP.
#[derive(Clone, Copy)]
pub(crate) enum Extent {
    Full,
    Bare,
}

/// What an answer is made of, whatever its form.
#[derive(Drop)]
pub(crate) struct Contents<'a> {
    pub(crate) alloc: Global,
    pub(crate) unknown: Unknown,
    pub(crate) levels: Levels,
    pub(crate) names: Names<'a>,
    /// The header of the request.
    pub(crate) header: Header,
    pub(crate) fault: Fault,
    /// The AVPs of the request.
    pub(crate) request: Vec<Held<'a>>,
    /// The data of Result-Code.
    pub(crate) code: [u8; 4],
    /// The data of Error-Message.
    line: String,
    /// The data of Failed-AVP, where there is one.
    failed: Option<Vec<u8>>,
    ghost fits: { header.code < three_bytes },
    ghost number: { code ≡ big_bytes 4 fault.code },
}

impl<'a> Contents<'a> {
    pub(crate) fn new<B: Book>(
        alloc: Global,
        book: &B,
        unknown: Unknown,
        levels: Levels,
        names: Names<'a>,
        header: Header,
        fault: Fault,
        bytes: &'a [u8],
    ) -> Result<Self, AllocError>
        requires long { header_length ≤ length bytes.now }
        requires fits { header.code < three_bytes }
        ensures same { IfOk result (λ contents. (contents.fault ≡ fault) × (contents.header ≡ header)
            × (contents.unknown ≡ unknown) × (contents.levels ≡ levels) × (contents.names ≡ names.entry)) }
        ensures request { IfOk result
            (λ contents. AreRequestAvps fault.reason (plains contents.request.items) bytes.now) }
        ensures failed { IfOk result (λ contents. IsFailed (B.meaning book.now) header bytes.now fault
            (option_map (λ f. f.items) contents.failed)) }
        ensures line { IfOk result
            (λ contents. line (string_bytes contents.line) ≡ fault_line (B.meaning book.now) fault) }
    {
        let mut code = [0; 4];
        BigEndian::write_u32(&mut code, fault.code);
        Ok(Contents {
            alloc,
            unknown,
            levels,
            names,
            header,
            fault,
            request: avps_of(alloc, fault.reason, bytes)?,
            code,
            line: line_of(alloc, book, &fault)?,
            failed: failed_data(alloc, book, &header, bytes, &fault)?,
        })
    }

    /// The data of Error-Message.
    pub(crate) fn line(&self, extent: Extent) -> Option<&str>
        ensures { option_map (λ l. l.now) result ≡ full extent (Some (string_bytes self.now.line)) }
    {
        match extent {
            Extent::Full => Some(self.line.as_str()),
            Extent::Bare => None,
        }
    }

    /// The data of Failed-AVP.
    pub(crate) fn failed(&self, extent: Extent) -> Option<&[u8]>
        ensures { option_map (λ f. f.now) result
            ≡ full extent (option_map (λ f. f.items) self.now.failed) }
    {
        match (extent, &self.failed) {
            (Extent::Full, Some(bytes)) => Some(bytes.as_slice()),
            (Extent::Full, None) => None,
            (Extent::Bare, _) => None,
        }
    }
}
