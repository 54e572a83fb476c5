// What stands on standard error while work goes on: the output of a run as it comes, and on a
// terminal how far long work is, in one line that is written again once a second.

use std::io::Stderr;
use std::time::{Clock, Instant};

const MIB: u64 = 1 << 20;

const MILLION: u64 = 1_000_000;

// As long as the longest line, and shorter than a terminal is wide.
const BLANK: &str = "                                                ";

/// What is shown of work that lasts more than a second, and of the output of a run.
#[derive(Drop)]
pub struct Meter {
    // When the last line was shown, or the work began. Where there is none, nothing is shown.
    since: Option<Instant>,
    // Whether a line stands on the terminal.
    stands: bool,
    // Whether the last line of the output that is shown isn't ended yet.
    is_amid_line: bool,
}

impl Meter {
    /// Nothing is ever shown.
    pub fn hidden() -> Self {
        Meter {
            since: None,
            stands: false,
            is_amid_line: false,
        }
    }

    /// Work that begins now.
    pub fn shown(clock: &impl Clock) -> Self {
        Meter {
            since: Instant::now(clock).ok(),
            stands: false,
            is_amid_line: false,
        }
    }

    // Whether a second went by since the last line. The clock isn't read where nothing is shown,
    // nor where the output stands amid a line, which isn't written over.
    fn is_due(&mut self, clock: &impl Clock) -> bool {
        if self.is_amid_line {
            return false;
        }
        let Some(since) = self.since else {
            return false;
        };
        match Instant::now(clock) {
            Ok(now) if now.duration_since(since).as_secs() > 0 => {
                self.since = Some(now);
                true
            }
            _ => false,
        }
    }

    /// Shows how many bytes of a file are read, of `length` or of how many is unknown where that is
    /// less, if it is time to.
    pub fn show_read<R: Eprint + Clock>(&mut self, runtime: &R, done: u64, length: u64) {
        if self.is_due(runtime) {
            self.clear(runtime);
            let read = done / MIB;
            let all = length / MIB;
            self.stands = if length < done {
                eprint!(runtime; "\rpredator: {read} MiB read").is_ok()
            } else {
                eprint!(runtime; "\rpredator: {read} of {all} MiB read").is_ok()
            };
        }
    }

    /// Shows how many bytes of a file are written, if it is time to.
    pub fn show_written<R: Eprint + Clock>(&mut self, runtime: &R, done: u64) {
        if self.is_due(runtime) {
            self.clear(runtime);
            let written = done / MIB;
            self.stands = eprint!(runtime; "\rpredator: {written} MiB written").is_ok();
        }
    }

    /// Shows how many steps of a run are made, of at most so many, if it is time to.
    pub fn show_steps<R: Eprint + Clock>(&mut self, runtime: &R, made: u64, most: u64) {
        if self.is_due(runtime) {
            self.clear(runtime);
            let done = made / MILLION;
            let all = most / MILLION;
            self.stands = eprint!(runtime;
                "\rpredator: {done} of at most {all} million steps"
            ).is_ok();
        }
    }

    /// Shows bytes of a run's output. Where they can't be shown they are lost.
    pub fn show_output<R: Eprint>(&mut self, runtime: &R, stderr: Stderr, bytes: &[u8]) {
        self.clear(runtime);
        let _ = stderr.write_all(bytes);
        self.is_amid_line = bytes.last() != Some(&b'\n');
    }

    // Takes the line away, where one stands.
    fn clear<R: Eprint>(&mut self, runtime: &R) {
        if self.stands {
            self.stands = false;
            let _ = eprint!(runtime; "\r{BLANK}\r");
        }
    }

    /// Makes room for what is said or printed: the line is taken away, where one stands, and the
    /// last line of the output is ended.
    pub fn make_room<R: Eprint>(&mut self, runtime: &R) {
        self.clear(runtime);
        if self.is_amid_line {
            self.is_amid_line = false;
            let _ = eprint!(runtime; "\n");
        }
    }
}
