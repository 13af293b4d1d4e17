// An answer to a service call, on files.
use crate::call::Options;
use crate::failure::Failure;
use crate::quantity::Quantity;
use crate::system::System;
use crate::{args, load, out, save};
use session::Outcome;

pub fn answer<'a>(
    rt: &impl System,
    module: &'a [u8],
    path: &'a [u8],
    value: &'a [u8],
    options: Options<'a>,
) -> Result<(), Failure<'a>> {
    let value = Quantity::Value.read(value)?;
    args::expect_apart(module, &[Some(path), options.to])?;
    let code = load::bytes(rt, module)?;
    let session = load::paused(rt, path)?;
    let reply = service::answer(&code, session, value);
    if let Outcome::Refused(refusal) = reply.outcome {
        return Err(Failure::Refused(refusal));
    }
    save::all(rt, options, None, Some(path), reply.session)?;
    out::answered(rt, reply.session)?;
    Ok(())
}
