//! The progress of long work.
ghost use Rattle.std.specs.Prelude.{◌≡◌, ◌≤◌, ℕ};

/// Receives the progress of work: how many of its parts, for example strikes or steps, are done.
pub trait Progress {
    /// The number of parts that was reported last.
    ghost told: { Self → ℕ };

    /// The number of parts of the work.
    ghost all: { Self → ℕ };

    /// Work of `parts` parts begins. If it ends without an error, its last report says that all are done.
    fn begin(&mut self, parts: u64)
        ensures told { told self.new ≡ 0 }
        ensures all { all self.new ≡ parts };

    /// `done` parts are done: no fewer than at the last report, and at most all.
    fn tell(&mut self, done: u64)
        requires rises { told self.old ≤ done }
        requires within { done ≤ all self.old }
        ensures told { told self.new ≡ done }
        ensures all { all self.new ≡ all self.old };
}

/// Prints nothing.
#[derive(Drop)]
pub struct Silent {
    done: u64,
    all: u64,
}

impl Silent {
    /// Before any work.
    pub fn new() -> Silent
        ensures { (result.done ≡ 0) × (result.all ≡ 0) }
    {
        Silent { done: 0, all: 0 }
    }
}

impl Progress for Silent {
    ghost told = { λ s. s.done };

    ghost all = { λ s. s.all };

    fn begin(&mut self, parts: u64) {
        self.done = 0;
        self.all = parts;
    }

    fn tell(&mut self, done: u64) {
        self.done = done;
    }
}
