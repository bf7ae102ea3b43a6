//! The laws of the gamma code. Their calls do nothing: what they ensure is proved for all numbers.
ghost use Rattle.silt_gamma.specs.Gamma.{GammaLaw, PrefixLaw};

/// The code is the one that the standard defines, and no other.
pub fn gamma_law()
    ensures { GammaLaw }
{}

/// No code is a prefix of another.
pub fn prefix_law()
    ensures { PrefixLaw }
{}
