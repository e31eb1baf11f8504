// Reads one model from standard input and prints the result of its analysis. If a write fails it stops quietly, with
// status 1; a read that fails ends the input.
#![tactic(auto)]

use std::process::ExitCode;

fn main(rt: HostRuntime) -> ExitCode {
    match console::read_and_print(&mut rt.stdin(), &mut rt.stdout()).written {
        Ok(()) => ExitCode::SUCCESS,
        Err(_) => ExitCode::FAILURE,
    }
}
