//! Bits that fill bytes from the highest bit on, and the Elias gamma code of the numbers from 1 to
//! 4,294,967,295. The code is as many zeros as the number has bits after its first one, and then its
//! bits. So 1 is `1`, 2 is `010`, 5 is `00101`.
#![tactic(auto)]

mod laws;
mod reader;
mod window;
mod writer;

pub use laws::{gamma_law, prefix_law};
pub use reader::BitReader;
pub use writer::BitWriter;
