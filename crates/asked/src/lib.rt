// What a word asks for: the effect of its instruction, or INE where it is none.

#![tactic(auto)]

ghost use Rattle.std.specs.Prelude.{◌≡◌};
ghost use Rattle.opcode.specs.Decode.{decode_of};
ghost use Rattle.asked.specs.Asked.{asked_of};

use effect::Effect;
use fault::Fault;
use place::GuestAddr;

pub fn of_word(word: u32, regs: &[u64; 32], pc: GuestAddr) -> Effect
    ensures { result ≡ asked_of (decode_of word) word regs.now pc }
{
    match decoder::decode(word) {
        Some(i) => ask::ask(i, regs, pc),
        None => Effect::Raise(Fault::Ine(word)),
    }
}
