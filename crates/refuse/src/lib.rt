// The tests that a run and an answer make before anything changes. Each decides on whole numbers: no sum here can wrap.

#![tactic(auto)]

ghost use Rattle.std.specs.Prelude.{◌≡◌, ◌<◌, [], ◌∷◌};
ghost use Rattle.refuse.specs.Refusals.{code_due, window_due, place_due, zero_due, budget_due, total_due, test, verdict_of, refused_of, run_tests};

use place::{CodeOffset, Window};
use session::{Refusal, Session};

// By 01's numbers: the refusal's, or 0 for "not refused".
pub fn number<T: Drop>(verdict: Result<T, Refusal>) -> u64
    ensures { result ≡ refused_of verdict }
{
    match verdict {
        Ok(_) => 0,
        Err(refusal) => u64::from(refusal),
    }
}

#[tactic(auto, unfolding(crate::specs::Refusals::code_due))]
pub fn code_due(len: usize) -> bool
    ensures { result ≡ code_due len }
{
    CodeOffset::MAX < len || len % 4 != 0
}

#[tactic(auto, unfolding(crate::specs::Refusals::window_due))]
fn window_due(window: Window) -> bool
    ensures { result ≡ window_due window }
{
    Window::MAX < window.len
}

// The length first, then the start beside what is left.
#[tactic(auto, using(crate::proofs::Room::left_over, crate::proofs::Room::over), unfolding(crate::specs::Refusals::place_due))]
fn place_due(window: Window, arena: usize) -> bool
    ensures { result ≡ place_due window arena }
{
    let start = window.start;
    arena < window.len || arena - window.len < start.0
}

#[tactic(auto, unfolding(crate::specs::Refusals::zero_due))]
pub fn zero_due(session: Session) -> bool
    ensures { result ≡ zero_due session }
{
    let regs = session.regs;
    regs[0] != 0
}

#[tactic(auto, unfolding(crate::specs::Refusals::budget_due))]
fn budget_due(budget: u64) -> bool
    ensures { result ≡ budget_due budget }
{
    Session::BUDGET < budget
}

#[tactic(auto, using(crate::proofs::Room::left_over, crate::proofs::Room::over), unfolding(crate::specs::Refusals::total_due))]
fn total_due(session: Session, budget: u64) -> bool
    ensures { result ≡ total_due session budget }
{
    Session::TOTAL < budget || Session::TOTAL - budget < session.total
}

// A test of a call: the refusal, where it is due.
pub fn refuse_if(due: bool, refusal: Refusal) -> Result<(), Refusal>
    ensures { result ≡ verdict_of (test refusal due ∷ []) }
{
    if due {
        return Err(refusal);
    }
    Ok(())
}

// The lowest that is due is the one that is given.
pub fn of_run(
    code: usize,
    arena: usize,
    window: Window,
    session: Session,
    budget: u64,
) -> Result<(), Refusal>
    ensures { result ≡ verdict_of (run_tests code arena window session budget) }
{
    refuse_if(code_due(code), Refusal::CodeLength)?;
    refuse_if(window_due(window), Refusal::WindowLength)?;
    refuse_if(place_due(window, arena), Refusal::WindowPlace)?;
    refuse_if(zero_due(session), Refusal::ZeroRegister)?;
    refuse_if(budget_due(budget), Refusal::Budget)?;
    refuse_if(total_due(session, budget), Refusal::Total)
}
