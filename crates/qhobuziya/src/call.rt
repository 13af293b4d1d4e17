// A call of the program: its command, the command's words and options.
use crate::args;
use crate::args::Argument;
use crate::command::{Command, Flag};
use crate::failure::{Failure, Usage};
use std::alloc::Global;

#[derive(Clone, Copy, Default)]
pub struct Options<'a> {
    pub is_dry: bool,
    pub from: Option<&'a [u8]>,
    pub to: Option<&'a [u8]>,
    pub budget: Option<&'a [u8]>,
}

impl<'a> Options<'a> {
    fn has(&self, flag: Flag) -> bool {
        match flag {
            Flag::Dry => self.is_dry,
            Flag::From => self.from.is_some(),
            Flag::To => self.to.is_some(),
            Flag::Budget => self.budget.is_some(),
        }
    }

    // The option --dry has no value.
    fn set(&mut self, flag: Flag, value: &'a [u8]) {
        match flag {
            Flag::Dry => self.is_dry = true,
            Flag::From => self.from = Some(value),
            Flag::To => self.to = Some(value),
            Flag::Budget => self.budget = Some(value),
        }
    }
}

#[derive(Drop)]
pub struct Call<'a> {
    pub command: Command,
    pub words: Vec<&'a [u8]>,
    pub options: Options<'a>,
}

impl<'a> Call<'a> {
    fn take_word(&mut self, word: &'a [u8]) -> Result<(), Failure<'a>> {
        if self.words.len() == self.command.wanted() {
            return Err(Failure::Usage(Usage::TooMany(word)));
        }
        self.words.push(word)?;
        Ok(())
    }

    // Takes an option, and answers it if it waits for a value.
    fn take_option(&mut self, word: &'a [u8]) -> Result<Option<Flag>, Usage<'a>> {
        let flag = Flag::of(self.command, word)?;
        if self.options.has(flag) {
            return Err(Usage::Twice(flag));
        }
        match flag {
            Flag::Dry => {
                self.options.set(flag, word);
                Ok(None)
            }
            Flag::From | Flag::To | Flag::Budget => Ok(Some(flag)),
        }
    }

    // Takes one more argument, behind an option that waits for its value or not. What begins with - is an option.
    fn take(&mut self, word: &'a [u8], waiting: Option<Flag>) -> Result<Option<Flag>, Failure<'a>> {
        match (waiting, word.starts_with(b"-")) {
            (Some(flag), true) => Err(Failure::Usage(Usage::NoValue(flag))),
            (Some(flag), false) => {
                self.options.set(flag, word);
                Ok(None)
            }
            (None, true) => Ok(self.take_option(word)?),
            (None, false) => {
                self.take_word(word)?;
                Ok(None)
            }
        }
    }

    // The arguments behind the program's name. Whether the command has all its words is for its caller to see.
    pub fn parse(alloc: Global, arguments: &'a [Argument]) -> Result<Call<'a>, Failure<'a>> {
        let Some(first) = arguments.get(1) else {
            return Err(Failure::Usage(Usage::Nothing));
        };
        let mut call = Call {
            command: Command::try_from(args::word_of(first)?)?,
            words: Vec::new(alloc),
            options: Options::default(),
        };
        let mut waiting = None;
        for argument in arguments.iter().skip(2) {
            waiting = call.take(args::word_of(argument)?, waiting)?;
        }
        match waiting {
            Some(flag) => Err(Failure::Usage(Usage::NoValue(flag))),
            None => Ok(call),
        }
    }
}
