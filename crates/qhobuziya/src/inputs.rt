// What a run is made on. Trace begins in the same way.
use crate::call::Options;
use crate::failure::Failure;
use crate::quantity::Quantity;
use crate::system::System;
use crate::{args, load};
use place::{ArenaOffset, Window};
use session::Session;

#[derive(Drop)]
pub struct Inputs {
    pub code: Vec<u8>,
    pub card: Vec<u8>,
    pub session: Session,
    pub budget: u64,
}

impl Inputs {
    // The files, once all else is known to be right: no file is given in two places, but that a session may go back to where it
    // came from.
    pub fn load<'a>(
        rt: &impl System,
        module: &'a [u8],
        card: &'a [u8],
        options: Options<'a>,
    ) -> Result<Inputs, Failure<'a>> {
        let budget = match options.budget {
            Some(word) => Quantity::Budget.read(word)?,
            None => Session::BUDGET,
        };
        args::expect_apart(module, &[Some(card), options.from, options.to])?;
        args::expect_apart(card, &[options.from, options.to])?;
        Ok(Inputs {
            code: load::bytes(rt, module)?,
            card: load::bytes(rt, card)?,
            session: load::begin(rt, options.from)?,
            budget,
        })
    }

    // The card's bytes are the window, and all of the arena.
    pub fn window(&self) -> Window {
        Window {
            start: ArenaOffset(0),
            len: self.card.len(),
        }
    }
}
