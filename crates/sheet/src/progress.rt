// How far a long file is read: said on standard error, where that is a terminal.
ghost use Rattle.std.specs.Prelude.{◌≡◌, ◌+◌, ◌<◌};

use std::io::{IsTerminal, Write};

// Files up to this length are read without a word.
const LONG: u64 = 64 * 1024 * 1024;

// How often it is said.
const STRIDE: u64 = 16 * 1024 * 1024;

const MEGABYTE: u64 = 1024 * 1024;

#[derive(Drop)]
pub(crate) struct Progress {
    pub(crate) done: u64,
    pub(crate) terminal: bool,
}

impl Progress {
    // Nothing is read yet.
    pub(crate) fn new(stderr: &impl IsTerminal) -> Progress
        ensures { result.done ≡ 0 }
    {
        Progress {
            done: 0,
            terminal: stderr.is_terminal(),
        }
    }

    // So many bytes more are read of a file of so many in all, where that is known.
    pub(crate) fn advance(&mut self, stderr: &mut impl Write, n: usize, total: Option<u64>)
        requires { self.old.done + n < 18446744073709551616 }
        ensures { self.new.done ≡ self.old.done + n }
    {
        let before = self.done;
        let done = before + n as u64;
        self.done = done;
        let Some(total) = total else {
            return;
        };
        if self.terminal && LONG < total && before / STRIDE != done / STRIDE {
            let megabytes = done / MEGABYTE;
            let of = total / MEGABYTE;
            let _ = write!(stderr, "\rread {megabytes} of {of} MB");
        }
    }

    // The line is cleared.
    pub(crate) fn over(&self, stderr: &mut impl Write) {
        if self.terminal && LONG < self.done {
            let _ = stderr.write_all(b"\r                                    \r");
        }
    }
}
