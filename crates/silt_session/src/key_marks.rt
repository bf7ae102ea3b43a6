// Which keys have requests that wait.
ghost use Rattle.std.specs.Prelude.{◌≡◌, ◌<◌, ◌↔◌, ◌⊎◌, ◌/◌, ◌%◌, ℕ, true};
ghost use Rattle.silt_session.specs.Marks.{IsMarked, mark_of};

use silt_frame::Key;

/// How many words the marks have.
const WORDS: usize = 64;

/// A set of keys in 4,096 marks. Keys with the same first twelve bits have one mark, so the set may seem to have a key that
/// was not added.
#[derive(Drop)]
pub struct KeyMarks {
    words: [u64; WORDS],
}

// The word of a key's mark, and the number of its bit.
fn place_of(key: &Key) -> (usize, u32)
    ensures word { result.0 ≡ mark_of key.now / 64 }
    ensures bit { result.1 ≡ mark_of key.now % 64 }
    ensures within { (result.0 < 64) × (result.1 < 64) }
{
    let mark = usize::from(key.0[0]) * 16 + usize::from(key.0[1]) / 16;
    (mark / 64, (mark % 64) as u32)
}

impl KeyMarks {
    /// No marks.
    pub(crate) fn new() -> KeyMarks
        ensures { (number : ℕ) → ¬ IsMarked result number }
    {
        KeyMarks { words: [0; WORDS] }
    }

    /// Marks a key.
    pub(crate) fn mark(&mut self, key: &Key)
        ensures { (number : ℕ) → IsMarked self.new number ↔ (IsMarked self.old number ⊎ (number ≡ mark_of key.now)) }
    {
        let (word, bit) = place_of(key);
        self.words[word] |= 1 << bit;
    }

    /// Whether a key with this mark is marked.
    pub(crate) fn has(&self, key: &Key) -> bool
        ensures { (result ≡ true) ↔ IsMarked self.now (mark_of key.now) }
    {
        let (word, bit) = place_of(key);
        self.words[word] >> bit & 1 == 1
    }

    /// Removes all marks.
    pub(crate) fn clear(&mut self)
        ensures { (number : ℕ) → ¬ IsMarked self.new number }
    {
        self.words = [0; WORDS];
    }
}
