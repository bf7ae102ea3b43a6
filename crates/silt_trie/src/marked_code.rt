//! The code of keys with marks.
ghost use Rattle.std.specs.Prelude.{◌≡◌, ℕ, ◌+◌, ◌^◌, ◌<◌, ◌≤◌, List, [], ◌∷◌, ◌++◌, length, OnOk, OnErr, IfOk};
ghost use Rattle.silt_trie.specs.Code.{IsCodable, trie_code, with_bit};
ghost use Rattle.silt_trie.specs.Coded.{Grows, bytes_of};
ghost use Rattle.silt_trie.specs.Marks.{head_code, marks_of};

use super::code_of_keys::count_left;
use super::marks::{Mark, SKIPS};
use super::skips::write_skipped;
use silt_frame::Key;
use silt_gamma::BitWriter;
use std::alloc::AllocError;

/// Appends the code of keys that agree in their first `depth` bits, and a mark of each prefix of the
/// next `levels` bits. `place` keys come before these keys. After an error part of both may have
/// been appended.
pub fn write_marked(
    bits: &mut BitWriter,
    marks: &mut Vec<Mark>,
    keys: &[Key],
    place: u32,
    depth: usize,
    levels: usize,
) -> Result<(), AllocError>
    requires codable { IsCodable (bytes_of keys.now) depth }
    requires counted { place + length keys.now < 2 ^ 32 }
    requires within { depth + levels ≤ 160 }
    ensures code { OnOk result (bits.new ≡ bits.old ++ trie_code (bytes_of keys.now) depth) }
    ensures marks { OnOk result (marks.new.items
        ≡ marks.old.items ++ marks_of levels 0 (bytes_of keys.now) depth (length bits.old) place) }
    ensures err { OnErr result (Grows bits.old bits.new × Grows marks.old.items marks.new.items) }
{
    if levels == 0 {
        let start = bits.len();
        let mut skips = [0; SKIPS];
        write_skipped(bits, &mut skips, keys, depth)?;
        return push_mark(marks, start, place, skips);
    }
    let left = write_head(bits, keys, depth)?;
    let (lefts, rights) = keys.split_at(left);
    write_marked(bits, marks, lefts, place, depth + 1, levels - 1)?;
    let place = place + left as u32;
    write_marked(bits, marks, rights, place, depth + 1, levels - 1)
}

/// Appends a mark, or changes nothing. If a `u32` cannot count its place in the code, that is out of memory too.
pub fn push_mark(
    marks: &mut Vec<Mark>,
    start: usize,
    place: u32,
    skips: [u16; SKIPS],
) -> Result<(), AllocError>
    ensures ok { OnOk result (marks.new.items
        ≡ marks.old.items ++ record { start = start; place = place; skips = skips } ∷ []) }
    ensures err { OnErr result (marks.new.items ≡ marks.old.items) }
{
    let start = u32::try_from(start).map_err(|_| AllocError)?;
    marks.push(Mark {
        start,
        place,
        skips,
    })?;
    Ok(())
}

/// Appends what comes before the codes of both sides, and returns the number of keys on the
/// left.
fn write_head(bits: &mut BitWriter, keys: &[Key], depth: usize) -> Result<usize, AllocError>
    requires within { depth < 160 }
    requires codable { IsCodable (bytes_of keys.now) depth }
    ensures left { IfOk result (λ left. left ≡ length (with_bit 0 depth (bytes_of keys.now))) }
    ensures code { OnOk result (bits.new ≡ bits.old ++ head_code 0 (bytes_of keys.now) depth) }
    ensures err { OnErr result (bits.new ≡ bits.old) }
{
    let left = count_left(keys, depth);
    if keys.len() < 2 {
        return Ok(left);
    }
    bits.write_gamma(left as u32 + 1)?;
    Ok(left)
}
