//! `diacmd`: the workbench for Diameter dictionaries and messages, on the command line.
//!
//! `main` hands the devices of the process to dia_program, and ends with the status that it answers.
#![tactic(auto)]

use dia_cli::OfProcess;
use dia_io::ToWriter;
use dia_program::run_process;
use std::io;
use std::process::ExitCode;

fn main(rt: HostRuntime) -> ExitCode {
    let stderr = rt.stderr();
    let mut out = ToWriter::new(io::writer(&rt));
    let mut err = ToWriter::new(io::writer(&stderr));
    let status = run_process(&rt, &OfProcess::new(&rt), &mut out, &mut err);
    ExitCode::from(status)
}
