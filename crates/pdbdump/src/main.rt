//! Shows what a program database holds: its streams, types, ids, names, sections, moved addresses
//! and frames, a line each, as text or as JSON. `pdbdump --help` says how it is called.
#![tactic(auto)]

use std::process::ExitCode;

fn main(rt: HostRuntime) -> ExitCode {
    ExitCode::from(pdbdump_cli::program(&rt))
}
