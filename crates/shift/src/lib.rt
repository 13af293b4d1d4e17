// Shifts of a register by a register or by a field: the amount is reduced inside.

#![tactic(auto)]

ghost use Rattle.std.specs.Prelude.{◌≡◌};
ghost use Rattle.shift.specs.Shift.{shift_of};

#[derive(Clone, Copy)]
pub enum Shift {
    SllW,
    SrlW,
    SraW,
    RotrW,
    SllD,
    SrlD,
    SraD,
    RotrD,
}

#[tactic(auto, using(crate::proofs::Turns::word_shifted), unfolding(crate::specs::Shift::shift_of))]
pub fn shift_value(op: Shift, x: u64, by: u64) -> u64
    ensures { result ≡ shift_of op x by }
{
    match op {
        Shift::SllW => word::sign_extend(x << (by % 32), 32),
        Shift::SrlW => word::sign_extend((word::low_word(x) >> (by % 32)) as u64, 32),
        Shift::SraW => word::as_bits((word::as_word(x) >> (by % 32)) as i64),
        Shift::RotrW => word::sign_extend(
            word::low_word(x).rotate_right((by % 32) as u32) as u64,
            32,
        ),
        Shift::SllD => x << (by % 64),
        Shift::SrlD => x >> (by % 64),
        Shift::SraD => word::as_bits(word::as_signed(x) >> (by % 64)),
        Shift::RotrD => x.rotate_right((by % 64) as u32),
    }
}
