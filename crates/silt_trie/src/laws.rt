//! Laws of keys. Their calls do nothing: what they ensure is proved for all keys.
ghost use Rattle.silt_trie.specs.Code.{GroupLaw, OrderLaw};

/// The order of keys by their bits is their order by bytes.
pub fn order_law()
    ensures { OrderLaw }
{}

/// Keys with the same first byte agree in their first 8 bits.
pub fn group_law()
    ensures { GroupLaw }
{}
