// What is said of a run once it is over.

// The most harts that there are.
const MOST_HARTS: u16 = 256;

/// What is to be said of a run.
#[derive(Drop)]
pub struct RunEnd {
    exit_code: Option<u32>,
    taken_harts: Option<u16>,
}

impl RunEnd {
    /// Nothing is to be said yet.
    pub fn new() -> Self {
        RunEnd {
            exit_code: None,
            taken_harts: None,
        }
    }

    /// The guest ended by itself with this code, which isn't 0.
    pub fn note_exit(&mut self, code: u32) {
        self.exit_code = Some(code);
    }

    /// The latest hart that was to start found none free, of so many.
    pub fn note_no_free_hart(&mut self, harts: u16) {
        self.taken_harts = Some(harts);
    }

    /// Says it on standard error.
    pub fn report<R: Eprint>(&self, runtime: &R) {
        match self.taken_harts {
            Some(harts) if harts < MOST_HARTS => {
                let _ = eprintln!(runtime;
                    "predator: the last thread could not start: all {harts} harts are in use (setting \
                    `harts`, at most {MOST_HARTS})"
                );
            }
            Some(harts) => {
                let _ = eprintln!(runtime;
                    "predator: the last thread could not start: all {harts} harts are in use, and \
                    there are never more"
                );
            }
            None => {}
        }
        if let Some(code) = self.exit_code {
            let _ = eprintln!(runtime; "predator: the program ended with exit code {code}");
        }
    }
}
