// The host's answer to a service call.

#![tactic(auto)]

ghost use Rattle.std.specs.Prelude.{◌≡◌};
ghost use Rattle.refuse.specs.Refusals.{verdict_of};
ghost use Rattle.service.specs.Answer.{is_syscall, call_due, answer_tests, Answers};

use place::GuestAddr;
use session::{Outcome, Refusal, Reply, Session};

// A test of its own, and not the decoder: a second caller of that would keep it out of the run's loop.
#[tactic(auto, using(crate::proofs::Agrees::first_bits))]
fn is_syscall(word: u32) -> bool
    ensures { result ≡ is_syscall word }
{
    word / 0x8000 == 0x56
}

#[tactic(auto, unfolding(crate::specs::Answer::call_due))]
fn call_due(code: &[u8], pc: GuestAddr) -> bool
    ensures { result ≡ call_due code.now pc }
{
    cpu::fetch(code, pc).is_none_or(|word| !is_syscall(word))
}

fn judge(code: &[u8], session: Session) -> Result<(), Refusal>
    ensures { result ≡ verdict_of (answer_tests code.now session) }
{
    refuse::refuse_if(refuse::code_due(code.len()), Refusal::CodeLength)?;
    refuse::refuse_if(refuse::zero_due(session), Refusal::ZeroRegister)?;
    refuse::refuse_if(call_due(code, session.pc), Refusal::NoSyscall)
}

// The value goes into r4, and the session goes on behind the SYSCALL.
pub fn answer(code: &[u8], session: Session, value: u64) -> Reply
    ensures { Answers code.now session value result }
{
    match judge(code, session) {
        Ok(()) => {
            let mut regs = session.regs;
            regs[4] = value;
            Reply {
                outcome: Outcome::Answered,
                steps: 0,
                session: Session {
                    regs,
                    pc: session.pc.plus(4),
                    ..session
                },
            }
        }
        Err(refusal) => Reply {
            outcome: Outcome::Refused(refusal),
            steps: 0,
            session,
        },
    }
}
