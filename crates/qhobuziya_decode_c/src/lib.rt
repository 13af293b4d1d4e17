// The exports for C of the crate qhobuziya_decode: each calls the function of its name there, under the same clauses.
#![tactic(auto)]

ghost use Rattle.qhobuziya_decode.specs.Exports.{DecodesRecord};

use numbered::DecodedRecord;

#[unsafe(no_mangle)]
pub extern "C" fn qhobuziya_decode(word: u32) -> DecodedRecord
    ensures { DecodesRecord word result }
{
    qhobuziya_decode::qhobuziya_decode(word)
}
