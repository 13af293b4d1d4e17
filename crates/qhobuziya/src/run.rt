// A run on files.
use crate::call::Options;
use crate::failure::Failure;
use crate::inputs::Inputs;
use crate::save::Target;
use crate::system::System;
use crate::{out, save};
use session::Outcome;

// Nothing is printed of a run whose files could not be written.
pub fn run<'a>(
    rt: &impl System,
    module: &'a [u8],
    card: &'a [u8],
    options: Options<'a>,
) -> Result<(), Failure<'a>> {
    let inputs = Inputs::load(rt, module, card, options)?;
    let window = inputs.window();
    let Inputs {
        code,
        card: mut bytes,
        session,
        budget,
    } = inputs;
    let reply = host::run(&code, &mut bytes, window, session, budget);
    if let Outcome::Refused(refusal) = reply.outcome {
        return Err(Failure::Refused(refusal));
    }
    let card = Target {
        path: card,
        bytes: &bytes,
    };
    save::all(rt, options, Some(card), options.from, reply.session)?;
    out::reply(rt, reply)?;
    Ok(())
}
