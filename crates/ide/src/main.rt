//! The program `ide`: it plays a script from standard input and writes the transcript to standard output.
#![tactic(auto)]

use ide_script::start;
use std::process::ExitCode;

fn main(rt: HostRuntime) -> ExitCode {
    start(&rt, &rt.stderr())
}
