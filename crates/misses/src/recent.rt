// Where the entries that came lately are in a table.
use std::alloc::Global;

/// For each rest of a number the index of the entry that came last. That is a guess: whoever asks
/// for it looks at the key there, and asks the table where it is another one.
#[derive(Drop)]
pub struct Recent {
    indices: Vec<u32>,
}

impl Recent {
    /// Nothing is remembered. That takes no memory.
    pub fn new(alloc: Global) -> Recent {
        Recent {
            indices: Vec::new(alloc),
        }
    }

    // Where the index stands. There are as many rests as a power of two.
    #[inline(always)]
    fn rest(&self, number: u32) -> usize {
        number as usize & self.indices.len().saturating_sub(1)
    }

    /// Where the entry of a number may be.
    #[inline(always)]
    pub fn guess(&self, number: u32) -> usize {
        match self.indices.get(self.rest(number)) {
            Some(index) => *index as usize,
            None => 0,
        }
    }

    /// Remembers where the entry of a number is.
    pub fn keep(&mut self, number: u32, index: usize) {
        let rest = self.rest(number);
        if let Some(place) = self.indices.get_mut(rest) {
            *place = u32::try_from(index).unwrap_or(0);
        }
    }

    /// Remembers where a new entry will be. There are two rests for each entry at least, if there is
    /// memory for that.
    pub fn add(&mut self, number: u32, index: usize) {
        if self.indices.len() / 2 <= index {
            self.double();
        }
        self.keep(number, index);
    }

    // Twice as many rests, each of which begins with what the one stood for that it comes from.
    fn double(&mut self) {
        let count = self.indices.len();
        if self.indices.reserve(count.max(2)).is_err() {
            return;
        }
        if count == 0 {
            let _first = self.indices.push(0);
            let _second = self.indices.push(0);
            return;
        }
        for i in 0..count {
            let index = match self.indices.get(i) {
                Some(index) => *index,
                None => return,
            };
            if self.indices.push(index).is_err() {
                return;
            }
        }
    }
}
