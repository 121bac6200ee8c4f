//! `diacmd` with the commands that a new checkout answers first.
//!
//! `bin/diacmd` runs it where the whole program isn't built yet.
#![tactic(auto)]

use dia_cli::OfProcess;
use dia_driver::run_process;
use dia_first::FirstTasks;
use dia_io::ToWriter;
use std::io;
use std::process::ExitCode;

fn main(rt: HostRuntime) -> ExitCode {
    let stderr = rt.stderr();
    let mut out = ToWriter::new(io::writer(&rt));
    let mut err = ToWriter::new(io::writer(&stderr));
    let status = run_process(&FirstTasks, &rt, &OfProcess::new(&rt), &mut out, &mut err);
    ExitCode::from(status)
}
