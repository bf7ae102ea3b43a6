//! Keys as a trie in few bits. It gives the place of a key among them without reading the keys.
//!
//! The code of fewer than two keys is empty. The code of more keys, which agree in their first
//! `depth` bits, has three parts. First comes the gamma code of the number of keys with bit 0 at
//! `depth`, plus one. Then come the code of these keys and the code of the others, both one bit
//! deeper. Bit 0 is the highest bit of a key's first byte.
//!
//! A [`Trie`] has its own bits. For many tries `write_code` appends their codes to one `BitWriter`,
//! and `locate_in` takes a reader that begins at one of them.
//!
//! A look-up in a `Trie` reads half of the code. So a [`MarkedTrie`] keeps marks: for each prefix of
//! some bits, where the code of the keys with that prefix begins, and how many keys come before
//! them. A look-up then reads only the code of these keys. A mark divides its keys into 32 parts,
//! and holds how many bits of code lie on the left. So a look-up reads the code of one part.
//!
//! The keys of a `MarkedTrie` are in groups, whose codes follow one another. The marks of the
//! groups' own bits are a table of the groups. A [`MarkedTrieBuilder`] builds one from keys that
//! come one by one, and holds the keys of one group at a time.
#![tactic(auto)]

mod code_of_keys;
mod coded_keys;
mod key;
mod key_place;
mod laws;
mod marked_code;
mod marked_trie;
mod marks;
mod skips;
mod trie;
mod trie_builder;

pub use code_of_keys::write_code;
pub use coded_keys::follows;
pub use key_place::locate_in;
pub use laws::{group_law, order_law};
pub use marked_code::{push_mark, write_marked};
pub use marked_trie::{MarkedTrie, levels_for, locate_between};
pub use marks::{MOST_LEVELS, Mark, groups_law, mark_law};
pub use trie::Trie;
pub use trie_builder::MarkedTrieBuilder;
