//! Serves each case of the folder that its first word names, or that it is started in, and tells each answer that isn't
//! the one which is kept; `data/README.md` says what a case is.
#![tactic(auto)]

mod answer;
mod case;
mod folder;

use anyhow::Result;
use case::serve_case;
use folder::Folder;
use std::env::{self, Env};
use std::process::ExitCode;
use std::rt::Files;

// How many cases there are, and how many of them have another answer or lack a file.
#[derive(Drop)]
struct Tally {
    cases: u64,
    wrong: u64,
}

fn main(rt: HostRuntime) -> Result<ExitCode> {
    if let Some(folder) = env::args(&rt)?.nth(1) {
        env::set_current_dir(&rt, folder)?;
    }
    let top = env::current_dir(&rt)?;
    let mut to_come = Vec::new(rt.alloc());
    to_come.push(String::from_str(rt.alloc(), top.as_str())?)?;
    let mut tally = Tally { cases: 0, wrong: 0 };
    for _ in 0..u64::MAX {
        let Some(path) = to_come.pop() else {
            break;
        };
        let folder = Folder::read(&rt, path, &mut to_come)?;
        serve_folder(&rt, top.as_str(), &folder, &mut tally)?;
    }
    println!(rt; "{} cases, {} wrong", tally.cases, tally.wrong)?;
    Ok(ExitCode::from(u8::from(tally.wrong > 0)))
}

// Serves the cases of a folder in it, so that their words name files as they would there.
fn serve_folder<R: AllocGlobal + Env + Eprint + Files>(
    rt: &R,
    top: &str,
    folder: &Folder,
    tally: &mut Tally,
) -> Result<()> {
    env::set_current_dir(rt, folder.path())?;
    let place = folder.path().strip_prefix(top).unwrap_or("");
    for file in folder.files() {
        let served = match file.rsplit_once('.') {
            Some((name, "args")) => {
                tally.cases = tally.cases.saturating_add(1);
                serve_case(rt, folder, name)
            }
            _ => folder.expect_case_of(file),
        };
        if let Err(fault) = served {
            tally.wrong = tally.wrong.saturating_add(1);
            eprintln!(rt; "data{place}/{file}: {fault}")?;
        }
    }
    Ok(())
}
