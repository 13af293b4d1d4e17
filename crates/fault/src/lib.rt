// What an instruction can raise, and 01's numbers for it.

#![tactic(auto)]

ghost use Rattle.std.specs.Prelude.{◌≡◌};
ghost use Rattle.fault.specs.Fault.{told_of, telling_of};

use place::GuestAddr;

// Each case holds what 01's table says that the stop carries.
#[derive(Clone, Copy)]
pub enum Fault {
    Adef(GuestAddr),
    Adem(GuestAddr),
    Ale(GuestAddr),
    Bce,
    Syscall(u32),
    Break(u32),
    Ine(u32),
}

#[derive(Clone, Copy)]
pub struct Telling {
    pub ecode: u64,
    pub subcode: u64,
    pub carried: u64,
}

fn told(ecode: u64, subcode: u64, carried: u64) -> Telling
    ensures { result ≡ told_of ecode subcode carried }
{
    Telling {
        ecode,
        subcode,
        carried,
    }
}

// The numbers of a fault: the only source of them.
impl From<Fault> for Telling {
    ghost from_gives = { λ fault telling. telling ≡ telling_of fault };

    fn from(fault: Fault) -> Telling {
        match fault {
            Fault::Adef(pc) => told(8, 0, pc.0),
            Fault::Adem(a) => told(8, 1, a.0),
            Fault::Ale(a) => told(9, 0, a.0),
            Fault::Bce => told(10, 0, 0),
            Fault::Syscall(code) => told(11, 0, code as u64),
            Fault::Break(code) => told(12, 0, code as u64),
            Fault::Ine(word) => told(13, 0, word as u64),
        }
    }
}
