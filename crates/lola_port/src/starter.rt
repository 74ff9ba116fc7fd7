//! A thread that starts the threads of sources. Only a function may ask that a handle can go to other threads; a call of a
//! trait, as that which fetches a source, may not. So a shelf has a thread that was given the handle when the shelf was
//! made.

use crate::handing::{Task, read_ahead};
use lola_value::text::Memory;
use std::alloc::Global;
use std::sync::{Arc, Condvar, Mutex, Wait};
use std::thread::{Builder, Threads};

// The stack of each of these threads, in bytes.
const STACK: usize = 128 * 1024;

// What is asked of the thread.
#[derive(Drop)]
struct Asked {
    // What a new thread is to do.
    task: Option<Task>,
    // Whether there is a thread that does it.
    answer: Option<bool>,
    // Nothing will be asked any more.
    is_closed: bool,
}

// Where the thread is asked.
#[derive(Drop)]
struct Desk {
    asked: Mutex<Asked>,
    changed: Condvar,
}

impl Desk {
    // The next work, once there is some. None where nothing will be asked any more.
    fn wait_for_task<R: Wait>(&self, rt: &R) -> Option<Task> {
        let mut asked = self.asked.lock(rt);
        for _ in rt.forever() {
            if asked.is_closed {
                return None;
            }
            if let Some(task) = asked.task.take() {
                return Some(task);
            }
            asked = self.changed.wait(rt, asked);
        }
        unreachable!()
    }

    // Says whether there is a thread for the work.
    fn answer<R: Wait>(&self, rt: &R, is_started: bool) {
        self.asked.lock(rt).answer = Some(is_started);
        self.changed.notify_all();
    }

    // Asks for a thread, and waits for the answer whether there is one.
    fn ask<R: Wait>(&self, rt: &R, task: Task) -> bool {
        let mut asked = self.asked.lock(rt);
        if asked.is_closed {
            return false;
        }
        asked.task = Some(task);
        self.changed.notify_all();
        for _ in rt.forever() {
            if let Some(answer) = asked.answer.take() {
                return answer;
            }
            asked = self.changed.wait(rt, asked);
        }
        unreachable!()
    }

    // Says that nothing will be asked any more.
    fn close<R: Wait>(&self, rt: &R) {
        self.asked.lock(rt).is_closed = true;
        self.changed.notify_all();
    }
}

// Starts a thread for this work, and says whether that went well.
fn start<R: Threads + Wait + Clone + Send + Drop + 'static>(rt: &R, task: Task) -> bool {
    let Ok(own) = rt.clone() else {
        return false;
    };
    let work = move || read_ahead(&own, task);
    Builder::new().stack_size(STACK).spawn(rt, work).is_ok()
}

// What the thread does: it starts a thread for all work that it is asked for, until nothing will be asked any more.
fn serve<R: Threads + Wait + Clone + Send + Drop + 'static>(rt: &R, desk: &Desk) {
    for _ in rt.forever() {
        let Some(task) = desk.wait_for_task(rt) else {
            return;
        };
        let is_started = start(rt, task);
        desk.answer(rt, is_started);
    }
}

// A thread that starts others. It ends when this is dropped.
pub(crate) struct Starter<R: Wait + Drop> {
    rt: R,
    desk: Arc<Desk, Global>,
}

impl<R: Wait + Drop> Drop for Starter<R> {
    fn drop(self) {
        self.desk.close(&self.rt);
        let Starter {
            rt: _rt,
            desk: _desk,
        } = self;
    }
}

impl<R: Threads + Wait + Clone + Send + Drop + 'static> Starter<R> {
    // The thread, or none where it cannot be started.
    pub(crate) fn create(rt: &R, alloc: Global) -> Result<Option<Starter<R>>, Memory> {
        let desk = Arc::new(
            alloc,
            Desk {
                asked: Mutex::new(Asked {
                    task: None,
                    answer: None,
                    is_closed: false,
                }),
                changed: Condvar::new(),
            },
        )?;
        let theirs = Arc::try_clone(&desk)?;
        let own = rt.clone()?;
        let kept = rt.clone()?;
        let work = move || serve(&own, &theirs);
        match Builder::new().stack_size(STACK).spawn(rt, work) {
            Ok(_) => Ok(Some(Starter { rt: kept, desk })),
            Err(_) => Ok(None),
        }
    }
}

impl<R: Wait + Clone + Drop> Starter<R> {
    // One that asks the thread, for as long as there is one.
    pub(crate) fn asker(&self) -> Result<Asker<R>, Memory> {
        Ok(Asker {
            rt: self.rt.clone()?,
            desk: Arc::try_clone(&self.desk)?,
        })
    }
}

// One that asks a thread to start others.
#[derive(Drop)]
pub(crate) struct Asker<R: Wait + Drop> {
    rt: R,
    desk: Arc<Desk, Global>,
}

impl<R: Wait + Drop> Asker<R> {
    // The runtime.
    pub(crate) fn runtime(&self) -> &R {
        &self.rt
    }

    // Has this work done on a thread of its own, and says whether there is one.
    pub(crate) fn start(&self, task: Task) -> bool {
        self.desk.ask(&self.rt, task)
    }
}
