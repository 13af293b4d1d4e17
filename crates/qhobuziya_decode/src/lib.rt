// Decoding, for C and Rust servers. In an archive of its own: beside the run's loop a second caller of the decoder would keep it out of
// that loop.

#![tactic(auto)]

ghost use Rattle.qhobuziya_decode.specs.Exports.{DecodesRecord};

use numbered::DecodedRecord;

pub fn qhobuziya_decode(word: u32) -> DecodedRecord
    ensures { DecodesRecord word result }
{
    DecodedRecord::from(decoder::decode(word))
}
