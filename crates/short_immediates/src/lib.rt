// Words that begin with nine zeros and a one: shifts by an immediate, and bit fields of a word.

#![tactic(auto)]

ghost use Rattle.std.specs.Prelude.{◌≡◌, ◌≤◌, ◌/◌, ◌^◌};
ghost use Rattle.opcode.specs.Decode.{decode_of};
ghost use Rattle.short_immediates.specs.Found.{word_shift, bit_field};

use fields::Field;
use isa::Instruction;
use shift::Shift;

// A shift of a word by an immediate, if bit 15 is set.
fn word_shift(set: bool, op: Shift, word: u32) -> Option<Instruction>
    ensures { result ≡ word_shift set op word }
{
    set.then_some(Instruction::ShiftImmediate(op, operands::of_r2i::<5>(word)))
}

// Shifts by an immediate.
fn shift_immediates(word: u32) -> Option<Instruction>
    requires { word / 2 ^ 21 ≡ 2 }
    ensures { result ≡ decode_of word }
{
    match word / 0x1_0000 {
        0x40 => word_shift(word / 0x8000 % 2 == 1, Shift::SllW, word),
        0x44 => word_shift(word / 0x8000 % 2 == 1, Shift::SrlW, word),
        0x48 => word_shift(word / 0x8000 % 2 == 1, Shift::SraW, word),
        0x4c => word_shift(word / 0x8000 % 2 == 1, Shift::RotrW, word),
        0x41 => Some(Instruction::ShiftImmediate(Shift::SllD, operands::of_r2i::<6>(word))),
        0x45 => Some(Instruction::ShiftImmediate(Shift::SrlD, operands::of_r2i::<6>(word))),
        0x49 => Some(Instruction::ShiftImmediate(Shift::SraD, operands::of_r2i::<6>(word))),
        0x4d => Some(Instruction::ShiftImmediate(Shift::RotrD, operands::of_r2i::<6>(word))),
        _ => None,
    }
}

// A bit field of a word or a double word, whose ends have `SIZE` bits each: msb is not below lsb.
pub fn bit_field<const SIZE: u32>(op: Field, word: u32) -> Option<Instruction>
    requires { SIZE ≤ 8 }
    ensures { result ≡ bit_field SIZE op word }
{
    operands::field_exists::<SIZE>(word).then_some(Instruction::Field(
        op,
        operands::of_field::<SIZE>(word),
    ))
}

// BSTRINS.W and BSTRPICK.W.
fn word_fields(word: u32) -> Option<Instruction>
    requires { word / 2 ^ 21 ≡ 3 }
    ensures { result ≡ decode_of word }
{
    if word / 0x8000 % 2 == 0 {
        bit_field::<5>(Field::BstrinsW, word)
    } else {
        bit_field::<5>(Field::BstrpickW, word)
    }
}

// Shifts by an immediate, and bit fields of a word.
pub fn short_immediates(word: u32) -> Option<Instruction>
    requires { word / 2 ^ 22 ≡ 1 }
    ensures { result ≡ decode_of word }
{
    if word / 0x20_0000 == 2 {
        shift_immediates(word)
    } else {
        word_fields(word)
    }
}
