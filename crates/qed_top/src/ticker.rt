//! Shows a person the progress of a campaign or a run.

use campaign::Progress;
use std::io::{Eprint, IsTerminal};
use std::time::Instant;

/// Prints on standard error, once a second, how many strikes or steps are made, in a line that is
/// overwritten and removed at the end. Prints nothing without a terminal or a clock.
#[derive(Drop)]
pub(crate) struct Ticker<'a> {
    rt: &'a HostRuntime,
    start: Option<Instant>,
    /// For how many seconds progress was shown.
    seconds: u64,
    /// How many parts are done, and how many there are.
    done: u64,
    all: u64,
}

impl<'a> Ticker<'a> {
    /// Starts now. Contracts know no clock and no terminal, so none says what it prints.
    pub(crate) fn of(rt: &'a HostRuntime) -> Self {
        let start = if rt.stderr().is_terminal() {
            Instant::now(rt).ok()
        } else {
            None
        };
        Ticker {
            rt,
            start,
            seconds: 0,
            done: 0,
            all: 0,
        }
    }

    /// For how many seconds progress could be shown.
    fn seconds_now(&self) -> u64 {
        match self.start.map(|start| start.elapsed(self.rt)) {
            Some(Ok(time)) => time.as_secs(),
            _ => 0,
        }
    }
}

impl Progress for Ticker<'_> {
    ghost told = { λ t. t.done };

    ghost all = { λ t. t.all };

    fn begin(&mut self, parts: u64) {
        self.done = 0;
        self.all = parts;
    }

    fn tell(&mut self, done: u64) {
        self.done = done;
        let all = self.all;
        let seconds = self.seconds_now();
        if done == all && self.seconds > 0 {
            let _ = self.rt.eprint("\x1b[K");
        } else if seconds > self.seconds {
            self.seconds = seconds;
            let _ = self.rt.eprint(format_args!("qed: {done} of {all} done\r"));
        }
    }
}
