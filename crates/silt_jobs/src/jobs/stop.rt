// Lines to stops. A stop is a crash at a chosen device call.
ghost use Rattle.std.specs.Prelude.{◌≡◌, ℕ, List};
ghost use Rattle.silt_jobs.specs.Common.{HoldsBytes, words_of};
ghost use Rattle.silt_jobs.specs.Stops.{fill_of, reported_stop, stop_of_words, stop_of};

use silt_device::{Fill, Stop};
use silt_wire::{LONGEST_LINE, LineBuffer, cut_word, number_of, without_carriage_return};

// The fill of a stop, by its word.
fn fill_of(word: &[u8]) -> Option<Fill>
    ensures { result ≡ fill_of word.now }
{
    if word == b"old".as_slice() {
        Some(Fill::Old)
    } else if word == b"new".as_slice() {
        Some(Fill::New)
    } else if word == b"zero".as_slice() {
        Some(Fill::Zero)
    } else if word == b"ones".as_slice() {
        Some(Fill::Ones)
    } else if word == b"mix".as_slice() {
        Some(Fill::Mix)
    } else {
        None
    }
}

// The stop of three words.
fn reported_stop(word: &[u8], k: &[u8], fill: &[u8]) -> Option<Stop>
    ensures { result ≡ reported_stop word.now k.now fill.now }
{
    if word != b"stop".as_slice() {
        return None;
    }
    let k = number_of(k)?;
    let fill = fill_of(fill)?;
    Some(Stop { k, fill })
}

// The stop in the words of a text.
#[tactic(auto, using(crate::proofs::Stops::stop_steps))]
fn stop_of_words(text: &[u8]) -> Option<Stop>
    ensures { result ≡ stop_of_words (words_of text.now) }
{
    let (word, rest) = cut_word(text)?;
    let (k, fill) = cut_word(rest)?;
    if cut_word(fill).is_some() {
        return None;
    }
    reported_stop(word, k, fill)
}

// The stop in a line, or none if it is no stop line.
//
// The line comes without its line feed, and one carriage return at its end is removed: `stop K FILL`. K is one to ten
// decimal digits and at most 4,294,967,295. FILL is `old`, `new`, `zero`, `ones` or `mix`. A line of more than 16,600
// bytes is no stop line.
fn stop_of(line: &[u8]) -> Option<Stop>
    ensures { result ≡ stop_of line.now }
{
    if line.len() > LONGEST_LINE {
        return None;
    }
    stop_of_words(without_carriage_return(line))
}

/// The stop in the line that is kept here, if it is a stop line.
pub fn stop_reported(pending: &LineBuffer) -> Option<Stop>
    ensures { (line : List ℕ) → HoldsBytes pending.now line → result ≡ stop_of line }
{
    if pending.is_long {
        return None;
    }
    stop_of(&pending.line)
}
