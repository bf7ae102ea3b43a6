// The laws of a client's stream.
ghost use Rattle.silt_resp.specs.Stream.{CutLaw, RespLaw};

/// How the bytes were cut into reads changes nothing.
pub fn cut_law()
    ensures { CutLaw }
{}

/// The commands that a client encodes are read, up to the one that closes the stream.
#[tactic(auto, using(crate::proofs::Encoded::resp_law))]
pub fn resp_law()
    ensures { RespLaw }
{}
