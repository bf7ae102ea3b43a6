// The choice of the next key to decide, and of the row or entry that decides it.
ghost use Rattle.std.specs.Prelude.{◌≡◌};
ghost use Rattle.silt_merge.specs.Choice.{choice_of, choice_puts, lower_choice};
ghost use Rattle.silt_merge.specs.State.{is_behind};

use crate::source::Source;
use silt_frame::Key;
use std::cmp::Ordering;

/// The next key to decide.
#[derive(Clone, Copy, Debug, PartialEq, Eq)]
pub struct Choice {
    pub key: Key,
    /// The gathered row that decides. `None` if the next entry does.
    pub source: Option<Source>,
    /// Whether the next entry has the key, and so is skipped.
    pub passes: bool,
}

// The choice of the lower of a gathered key and the next entry's key. If they are equal, the row decides.
fn choose_lower(key: Key, source: Source, next: Key) -> Choice
    ensures { result ≡ lower_choice key source next }
{
    match key.cmp(&next) {
        Ordering::Less => Choice {
            key,
            source: Some(source),
            passes: false,
        },
        Ordering::Equal => Choice {
            key,
            source: Some(source),
            passes: true,
        },
        Ordering::Greater => Choice {
            key: next,
            source: None,
            passes: true,
        },
    }
}

/// Whether the next entry's key is at most the last decided key.
pub fn is_behind(last: Option<Key>, next: Option<Key>) -> bool
    ensures { result ≡ is_behind last next }
{
    match (last, next) {
        (_, None) => false,
        (None, Some(_)) => false,
        (Some(last), Some(next)) => !last.cmp(&next).is_lt(),
    }
}

/// The choice between the first gathered key with its row and the next entry's key. `None` if there is neither.
pub fn choose(first: Option<(Key, Source)>, next: Option<Key>) -> Option<Choice>
    ensures { result ≡ choice_of first next }
{
    match (first, next) {
        (None, None) => None,
        (None, Some(next)) => Some(Choice {
            key: next,
            source: None,
            passes: true,
        }),
        (Some((key, source)), None) => Some(Choice {
            key,
            source: Some(source),
            passes: false,
        }),
        (Some((key, source)), Some(next)) => Some(choose_lower(key, source, next)),
    }
}

impl Choice {
    /// Whether the key has a value: an entry decides, or a row that is a put.
    pub fn is_put(&self) -> bool
        ensures { result ≡ choice_puts self.now.source }
    {
        match self.source {
            Some(source) => source.kind.is_put(),
            None => true,
        }
    }
}
