//! Gives each worker one turn for each line that makes a request.
ghost use Rattle.std.specs.Prelude.{◌≡◌, true, false};

use session::Gate;
use std::sync::{Condvar, Mutex, Wait};

/// How many lines have made a request, and whether the script has ended.
#[derive(Drop)]
struct Progress {
    asked: u64,
    ended: bool,
}

/// What the workers wait for: the progress of a script.
#[derive(Drop)]
pub(crate) struct Lines {
    progress: Mutex<Progress>,
    moved: Condvar,
}

impl Lines {
    pub(crate) fn new() -> Lines {
        Lines {
            progress: Mutex::new(Progress {
                asked: 0,
                ended: false,
            }),
            moved: Condvar::new(),
        }
    }

    /// Records that a line makes a request: each worker has one more turn.
    pub(crate) fn ask<T: Wait>(&self, rt: &T) {
        let mut progress = self.progress.lock(rt);
        progress.asked = progress.asked.saturating_add(1);
        drop(progress);
        self.moved.notify_all();
    }

    /// Records that the script has ended: no worker has a turn any more.
    pub(crate) fn end<T: Wait>(&self, rt: &T) {
        let mut progress = self.progress.lock(rt);
        progress.ended = true;
        drop(progress);
        self.moved.notify_all();
    }

    /// Waits until more than `taken` lines have made a request, or the script has ended. Returns whether there is a turn: the script hasn't
    /// ended.
    fn has_turn<T: Wait>(&self, rt: &T, taken: u64) -> bool {
        let progress = self
            .moved
            .wait_while(rt, self.progress.lock(rt), |progress| {
                !progress.ended && progress.asked <= taken
            });
        !progress.ended
    }
}

/// A worker's gate. It gives as many turns as lines have made requests, until the script has ended.
#[derive(Drop)]
pub(crate) struct WorkerTurns<'t, 'l, T: Wait> {
    rt: &'t T,
    lines: &'l Lines,
    taken: u64,
    left: u64,
    stopped: bool,
}

impl<'t, 'l, T: Wait> WorkerTurns<'t, 'l, T> {
    pub(crate) fn new(rt: &'t T, lines: &'l Lines) -> WorkerTurns<'t, 'l, T> {
        WorkerTurns {
            rt,
            lines,
            taken: 0,
            left: u64::MAX,
            stopped: false,
        }
    }

    /// Waits until one more line has made a request or the script has ended, and returns whether there is another turn.
    fn has_turn(&self) -> bool
        ensures { self.now.stopped ≡ true → result ≡ false }
    {
        !self.stopped && self.lines.has_turn(self.rt, self.taken)
    }
}

impl<T: Wait> Gate for WorkerTurns<'_, '_, T> {
    ghost left = { λ g. g.left };

    ghost stopped = { λ g. g.stopped };

    fn turn(&mut self) -> bool {
        let more = self.left > 0 && self.has_turn();
        if more {
            self.taken = self.taken.saturating_add(1);
            self.left -= 1;
        }
        self.stopped = !more;
        more
    }
}
