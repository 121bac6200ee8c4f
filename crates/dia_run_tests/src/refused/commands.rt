//! Commands of the program: a refused one has written nothing.

ghost use Rattle.std.specs.Prelude.{None};

use dia_check::{Levels, Unknown};
use dia_dict::base_text;
use dia_run::{Command, Exit, Failed, Input, Inputs, RunFault, Sink, run};
use std::alloc::{AllocError, Global};
use std::process::Abort;

/// How many bytes the sink has room for.
const ROOM: usize = 256;

/// Takes what is written, without an allocation.
#[derive(Drop)]
struct Taken {
    bytes: [u8; ROOM],
    count: usize,
    failed: bool,
}

impl Taken {
    fn text(&self) -> &[u8] {
        &self.bytes[..self.count.min(ROOM)]
    }
}

impl Sink for Taken {
    ghost written = { λ _. None };

    ghost has_failed = { λ s. s.failed };

    fn put(&mut self, piece: &[u8]) -> Result<usize, Failed> {
        let from = self.count.min(ROOM);
        let count = piece.len().min(ROOM - from);
        if count < piece.len() {
            self.failed = true;
            return Err(Failed);
        }
        self.bytes[from..from + count].copy_from_slice(piece);
        self.count = from + count;
        Ok(count)
    }

    fn failed(&self) -> bool {
        self.failed
    }
}

/// Runs a command. Where memory is refused, nothing is written, and the same command is run again.
fn runs_again(rt: &(impl AllocGlobal + Abort), command: &Command, inputs: &Inputs, wanted: &str) {
    let mut sink = Taken {
        bytes: [0; ROOM],
        count: 0,
        failed: false,
    };
    let exit = match run(rt.alloc(), command, inputs, &mut sink) {
        Err(RunFault::NoMemory) => {
            assert!(rt; sink.text().is_empty() && !sink.failed);
            run(rt.alloc(), command, inputs, &mut sink)
        }
        exit => exit,
    };
    assert!(rt; exit == Ok(Exit::Yes));
    assert!(rt; sink.text() == wanted.as_bytes());
}

/// The input of a text.
fn input(alloc: Global, text: &str) -> Result<Input, AllocError> {
    Ok(Input::Bytes(Vec::from_slice(alloc, text.as_bytes())?))
}

/// Inputs of these texts, in the order of `Inputs`.
fn inputs(alloc: Global, texts: [&str; 4]) -> Result<Inputs, AllocError> {
    let [first, second, table, message] = texts;
    Ok(Inputs {
        first: input(alloc, first)?,
        second: input(alloc, second)?,
        table: input(alloc, table)?,
        message: input(alloc, message)?,
    })
}

/// A device watchdog request.
const REQUEST: &str =
    "0100002c80000118000000000000000100000002000001084000000b612e6200000001284000000962000000";

const LINES: &str = "\
header flags 80 code 280 app 0 hop 1 end 2 length 44
20 0 264 - 40 11 Origin-Host \"a.b\"
32 0 296 - 40 9 Origin-Realm \"b\"
";

#[test]
fn a_refused_check_has_written_nothing(rt: HostRuntime) {
    let command = Command::Check {
        unknown: Unknown::Kept,
        levels: Levels::Any,
    };
    if let Ok(inputs) = inputs(rt.alloc(), [base_text(), "", "", REQUEST]) {
        runs_again(&rt, &command, &inputs, "valid DWR\n");
    }
}

#[test]
fn a_refused_listing_has_written_nothing(rt: HostRuntime) {
    if let Ok(inputs) = inputs(rt.alloc(), [base_text(), "", "", REQUEST]) {
        runs_again(&rt, &Command::Show, &inputs, LINES);
    }
}

const A: &str = "%avp X 9002 Unsigned32 any <T> ::= < Diameter Header: 302, REQ > { X }";

const B: &str = "%avp X 9002 Unsigned32 any <T> ::= < Diameter Header: 302, REQ > 1*3 { X }";

#[test]
fn a_refused_comparison_has_written_nothing(rt: HostRuntime) {
    let command = Command::Compare {
        unknown: Unknown::Kept,
    };
    if let Ok(inputs) = inputs(rt.alloc(), [A, B, "command T = T\navp X = X\n", ""]) {
        runs_again(&rt, &command, &inputs, "yes\n");
    }
}
