//! A coded trie with its own bits.
ghost use Rattle.std.specs.Prelude.{◌≡◌, ◌+◌, ◌^◌, ◌<◌, length, IfOk};
ghost use Rattle.silt_gamma.specs.Bits.{HoldsBits};
ghost use Rattle.silt_trie.specs.Code.{IsCodable, trie_code};
ghost use Rattle.silt_trie.specs.Coded.{Coded, IsPlaceIn, bytes_of};

use super::code_of_keys::write_code;
use super::key_place::locate_in;
use silt_frame::Key;
use silt_gamma::BitWriter;
use std::alloc::{AllocError, Global};
use std::marker::Model;

/// The code of some keys that agree in their first `depth` bits.
#[derive(Drop)]
pub struct Trie {
    bits: BitWriter,
    count: usize,
    depth: usize,
}

impl Model for Trie {
    ghost Value = { Coded };

    ghost view = { λ t. record { code = t.bits; count = t.count; depth = t.depth } };

    ghost invariant = { λ t. t.count < 2 ^ 32 };
}

impl Trie {
    /// The code of keys that rise strictly and agree in their first `depth` bits.
    pub fn encode(alloc: Global, keys: &[Key], depth: usize) -> Result<Trie, AllocError>
        requires { IsCodable (bytes_of keys.now) depth }
        ensures code { IfOk result (λ trie. trie.code ≡ trie_code (bytes_of keys.now) depth) }
        ensures count { IfOk result (λ trie. trie.count ≡ length keys.now) }
        ensures depth { IfOk result (λ trie. trie.depth ≡ depth) }
    {
        let mut bits = BitWriter::new(alloc);
        write_code(&mut bits, keys, depth)?;
        Ok(Trie {
            bits,
            count: keys.len(),
            depth,
        })
    }

    /// The number of keys.
    pub fn len(&self) -> usize
        ensures { result ≡ self.now.count }
    {
        self.count
    }

    /// The length of their code, in bits: with `as_bytes` it gives the code itself.
    pub fn code_len(&self) -> usize
        ensures { result ≡ length self.now.code }
    {
        self.bits.len()
    }

    /// The bytes that hold the code. Zeros fill up the last one.
    pub fn as_bytes(&self) -> &[u8]
        ensures { HoldsBits result.now self.now.code }
    {
        self.bits.as_bytes()
    }

    /// The only possible place of the key.
    pub fn locate(&self, key: &Key) -> usize
        requires { 0 < self.now.count }
        ensures below { result < self.now.count }
        ensures place { IsPlaceIn self.now.code self.now.count self.now.depth key.now.0 result }
    {
        let bits = self.bits.reader(0, self.bits.len());
        locate_in(bits, self.count, self.depth, key)
    }
}
