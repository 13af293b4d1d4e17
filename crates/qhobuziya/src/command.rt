// The commands, and which words and options each has.
use crate::failure::Usage;
use std::fmt;

#[derive(Clone, Copy)]
pub enum Command {
    Run,
    Trace,
    Answer,
    Decode,
    Show,
    Help,
}

#[derive(Clone, Copy)]
pub enum Flag {
    Dry,
    From,
    To,
    Budget,
}

impl Command {
    fn name(self) -> &'static str {
        match self {
            Command::Run => "run",
            Command::Trace => "trace",
            Command::Answer => "answer",
            Command::Decode => "decode",
            Command::Show => "show",
            Command::Help => "help",
        }
    }

    // The words that the command needs.
    pub fn needs(self) -> &'static str {
        match self {
            Command::Run | Command::Trace => "MODULE and CARD",
            Command::Answer => "MODULE, SESSION and VALUE",
            Command::Decode => "WORD",
            Command::Show => "SESSION",
            Command::Help => "no word",
        }
    }

    // How many these are.
    pub fn wanted(self) -> usize {
        match self {
            Command::Run | Command::Trace => 2,
            Command::Answer => 3,
            Command::Decode | Command::Show => 1,
            Command::Help => 0,
        }
    }

    pub fn has(self, flag: Flag) -> bool {
        match self {
            Command::Run => true,
            Command::Trace => matches!(flag, Flag::From | Flag::Budget),
            Command::Answer => matches!(flag, Flag::To | Flag::Dry),
            Command::Decode | Command::Show | Command::Help => false,
        }
    }
}

impl<'a> TryFrom<&'a [u8]> for Command {
    type Error = Usage<'a>;

    fn try_from(word: &'a [u8]) -> Result<Command, Usage<'a>> {
        match word {
            b"run" => Ok(Command::Run),
            b"trace" => Ok(Command::Trace),
            b"answer" => Ok(Command::Answer),
            b"decode" => Ok(Command::Decode),
            b"show" => Ok(Command::Show),
            b"help" => Ok(Command::Help),
            _ => Err(Usage::NoCommand(word)),
        }
    }
}

impl fmt::Display for Command {
    fn fmt<W: fmt::Write>(&self, f: &mut fmt::Formatter<W>) -> fmt::Result {
        f.write_str(self.name())
    }
}

impl Flag {
    fn name(self) -> &'static str {
        match self {
            Flag::Dry => "--dry",
            Flag::From => "--from",
            Flag::To => "--to",
            Flag::Budget => "--budget",
        }
    }

    // The option of a command that a word names.
    pub fn of<'a>(command: Command, word: &'a [u8]) -> Result<Flag, Usage<'a>> {
        let flag = match word {
            b"--dry" => Some(Flag::Dry),
            b"--from" => Some(Flag::From),
            b"--to" => Some(Flag::To),
            b"--budget" => Some(Flag::Budget),
            _ => None,
        };
        flag.filter(|flag| command.has(*flag))
            .ok_or(Usage::NoOption(command, word))
    }
}

impl fmt::Display for Flag {
    fn fmt<W: fmt::Write>(&self, f: &mut fmt::Formatter<W>) -> fmt::Result {
        f.write_str(self.name())
    }
}
