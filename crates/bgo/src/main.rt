//! The core of the program `b` alone: it compiles B, runs code texts, and migrates them.
#![tactic(auto)]

use bcore::{NoTools, serve_host};
use std::process::ExitCode;

fn main(rt: HostRuntime) -> ExitCode {
    serve_host(&NoTools, &rt)
}
