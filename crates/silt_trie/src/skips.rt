//! How many bits of code lie on the left, so that a look-up skips them.
ghost use Rattle.std.specs.Prelude.{◌≡◌, ℕ, ◌+◌, ◌-◌, ◌^◌, ◌<◌, ◌++◌, List, Option, length, min, replicate, OnOk, OnErr};
ghost use Rattle.silt_trie.specs.Code.{IsCodable, trie_code};
ghost use Rattle.silt_trie.specs.Coded.{ArePast, Grows, bytes_of};
ghost use Rattle.silt_trie.specs.Marks.{AreSkipsInto, IsSkipOf, skips_of};

use super::code_of_keys::{count_left, write_code};
use super::key::KEY_BITS;
use super::key_place::skip_code;
use silt_frame::Key;
use silt_gamma::{BitReader, BitWriter};
use std::alloc::AllocError;

/// A skip of this many bits or more, whose exact number is unknown.
const MOST_SKIPPED: u16 = u16::MAX;

/// Appends the code of keys. Writes into `skips`, which are zeros, how many bits the code of the
/// keys on the left takes: of all keys, then of both parts that the next bit makes of them, and so
/// on, the left part with all its parts first. After an error part of the code may have been
/// appended.
pub(crate) fn write_skipped(
    bits: &mut BitWriter,
    skips: &mut [u16],
    keys: &[Key],
    depth: usize,
) -> Result<(), AllocError>
    requires { IsCodable (bytes_of keys.now) depth }
    ensures code { OnOk result (bits.new ≡ bits.old ++ trie_code (bytes_of keys.now) depth) }
    ensures skips { OnOk result ((m : ℕ) → skips.old ≡ replicate (2 ^ m - 1) 0
        → skips.new ≡ skips_of m (bytes_of keys.now) depth) }
    ensures err { OnErr result (Grows bits.old bits.new) }
{
    if keys.len() < 2 || depth >= KEY_BITS {
        return Ok(());
    }
    let Some((skip, parts)) = skips.split_first_mut() else {
        return write_code(bits, keys, depth);
    };
    let half = parts.len() / 2;
    let (left_skips, right_skips) = parts.split_at_mut(half);
    let left = count_left(keys, depth);
    bits.write_gamma(left as u32 + 1)?;
    let (lefts, rights) = keys.split_at(left);
    let start = bits.len();
    write_skipped(bits, left_skips, lefts, depth + 1)?;
    *skip = skip_of(bits.len() - start);
    write_skipped(bits, right_skips, rights, depth + 1)
}

/// This many bits as a skip.
fn skip_of(len: usize) -> u16
    ensures { result ≡ min len 65535 }
{
    len.min(usize::from(MOST_SKIPPED)) as u16
}

/// The skip over the left side, if there is one, and the skips of the left and of the right side.
pub(crate) fn divide_skips(skips: &[u16]) -> (Option<u16>, &[u16], &[u16])
    ensures { (m : ℕ) (keys : List (List ℕ)) (d : ℕ) → skips.now ≡ skips_of m keys d
        → AreSkipsInto m keys d result.0 result.1.now result.2.now }
{
    let Some((skip, parts)) = skips.split_first() else {
        return (None, skips, skips);
    };
    let (lefts, rights) = parts.split_at(parts.len() / 2);
    (Some(*skip), lefts, rights)
}

/// Takes the code of `count` keys off the front: at once if there is a skip over it that knows its
/// length, else code by code.
pub(crate) fn pass_code(bits: &mut BitReader<'_>, count: u32, depth: usize, skip: Option<u16>)
    ensures { (keys : List (List ℕ)) (rest : List ℕ)
        → IsCodable keys depth → length keys ≡ count → bits.old ≡ trie_code keys depth ++ rest
        → IsSkipOf keys depth skip → bits.new ≡ rest }
{
    match skip {
        Some(skip) if skip < MOST_SKIPPED && usize::from(skip) <= bits.len() => {
            bits.skip(usize::from(skip))
        }
        _ => skip_code(bits, count, depth),
    }
}
