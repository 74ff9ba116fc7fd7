//! The program `lolamon`: the monitor over files, standard output and standard error.
#![tactic(auto)]

use lola_monitor::run_monitor;
use lola_port::{ErrSink, FolderShelf, IdleGate, OutSink};
use lola_text::keys::random_keys;
use lola_value::text::Memory;
use std::alloc::Global;
use std::env;
use std::fs::File;
use std::hash::RandomState;
use std::io::ErrorKind;
use std::process::ExitCode;
use std::rt::{Env, Files};
use std::sync::Wait;
use std::thread::{Builder, Promise, Threads};
use std::time::Clock;

// The stack of the thread that does the work, in bytes. The deepest specifications within the limit of nestings take a quarter of it to
// be read, so that what the system gives a program does not matter.
const STACK: usize = 16 * 1024 * 1024;

// What the status of that thread keeps: nothing.
#[derive(Clone, Copy)]
struct AnyStatus;

impl Promise<u8> for AnyStatus {
    ghost kept_by = { λ _ _. Unit {0} };
}

// The words of the command line. Where they cannot be had, none, which is no command.
fn words(rt: &(impl Env + AllocGlobal)) -> Result<Vec<String>, Memory> {
    match env::args(rt) {
        Ok(words) => Ok(words.collect(rt.alloc())?),
        Err(error) if error.kind() == ErrorKind::OutOfMemory => Err(Memory),
        Err(_) => Ok(Vec::new(rt.alloc())),
    }
}

// Does what the words ask for, over the files that `files` can open, and answers the status.
fn monitor<
    R: Threads + Wait + Files<File = File> + Print + Clock + Clone + Send + Sync + Drop + 'static,
>(
    rt: &R,
    files: R,
    alloc: Global,
    hasher: RandomState,
    words: &[String],
    mut trace: ErrSink,
) -> u8 {
    let mut shelf = FolderShelf::create(files, alloc);
    let mut out = OutSink::create(rt);
    run_monitor(
        rt, alloc, hasher, words, &mut shelf, &mut out, &mut trace, &IdleGate,
    )
}

fn main(rt: HostRuntime) -> ExitCode {
    let alloc = rt.alloc();
    let Ok(words) = words(&rt) else {
        return ExitCode::from(8);
    };
    let Ok(hasher) = random_keys(&rt) else {
        return ExitCode::from(8);
    };
    let Ok(own) = rt.clone() else {
        return ExitCode::from(8);
    };
    let Ok(files) = rt.clone() else {
        return ExitCode::from(8);
    };
    let Ok(traced) = rt.clone() else {
        return ExitCode::from(8);
    };
    let work = move || monitor(&own, files, alloc, hasher, &words, ErrSink::create(traced));
    // where no thread can be started, on the stack that is there
    let status = match Builder::new()
        .stack_size(STACK)
        .spawn_with(&rt, AnyStatus, work)
    {
        Ok(thread) => thread.join(&rt),
        Err(refused) => (refused.value)(),
    };
    ExitCode::from(status)
}
