// Checks promises about probabilistic job systems: runs job files, and prints each action with its answer.
#![tactic(auto)]

mod case;
mod refused;
mod session;
mod show;
mod stack;
mod words;

use anyhow::bail;
use session::Session;
use std::{env, fs};

// Runs one job; what cannot be understood is told with its line.
fn run_job(rt: &HostRuntime, path: &str, text: &str) -> anyhow::Result<()> {
    let mut session = Session::new(rt.alloc());
    for (i, line) in text.lines().enumerate() {
        if let Err(fault) = session.run_line(rt, line) {
            let number = i.saturating_add(1);
            eprintln!(rt; "{path}:{number}: {fault}")?;
            return Err(fault);
        }
    }
    session.finish_component(rt)
}

fn main(rt: HostRuntime) -> anyhow::Result<()> {
    let mut paths = env::args(&rt)?.skip(1).peekable();
    if paths.peek().is_none() {
        eprintln!(rt; "usage: qcheck FILE..")?;
        bail!("no job is given");
    }
    for path in paths {
        let path = path.as_str();
        match fs::read_to_string(&rt, path) {
            Ok(text) => run_job(&rt, path, text.as_str())?,
            Err(fault) => {
                eprintln!(rt; "{path}: {fault}")?;
                return Err(fault.into());
            }
        }
    }
    Ok(())
}
