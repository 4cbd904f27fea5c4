ghost use Rattle.std.specs.Prelude.{◌≡◌, ◌<◌, true, MatchOption};
ghost use Rattle.orders.specs.Bits.{marked, NoneMarked, FirstMarked, MarksToo, Unmarks};

/// Which of the 256 queues hold a slot: a bit for each, in four words.
#[derive(Clone, Copy)]
pub(crate) struct Marks {
    pub(crate) words: [u64; 4],
}

impl Marks {
    /// No queue is marked.
    pub(crate) fn none() -> Marks
        ensures { NoneMarked result.words 0 256 }
    {
        Marks { words: [0; 4] }
    }

    /// Queue `q` is marked.
    pub(crate) fn mark(&mut self, q: usize)
        requires { q < 256 }
        ensures { MarksToo self.old.words self.new.words q }
    {
        self.words[q / 64] |= 1 << (q % 64);
    }

    /// Queue `q`, which is marked, is not marked any more.
    pub(crate) fn unmark(&mut self, q: usize)
        requires { (q < 256) × (marked self.old.words q ≡ true) }
        ensures { Unmarks self.old.words self.new.words q }
    {
        self.words[q / 64] ^= 1 << (q % 64);
    }

    /// The first queue that is marked from `p` on: what is left of the word of `p`, and then each word after it, by its trailing zeros.
    pub(crate) fn from(&self, p: usize) -> Option<usize>
        requires { p < 256 }
        ensures { MatchOption result (NoneMarked self.now.words p 256) (FirstMarked self.now.words p) }
    {
        let first = p / 64;
        let part = self.words[first] >> (p % 64);
        if part != 0 {
            return Some(p + part.trailing_zeros() as usize);
        }
        let (word, whole) = self
            .words
            .iter()
            .enumerate()
            .skip(first + 1)
            .find(|(_, whole)| **whole != 0)?;
        Some(word * 64 + whole.trailing_zeros() as usize)
    }
}
