// Qhobuziya on the command line: the five host calls on files, and a trace. Results go to standard output, messages to standard error;
// the exit status is always 0.
#![tactic(auto)]

mod answer;
mod args;
mod call;
mod command;
mod decode;
mod failure;
mod help;
mod inputs;
mod load;
mod message;
mod numeral;
mod out;
mod quantity;
mod run;
mod save;
mod show;
mod system;
mod trace;

use args::Argument;
use call::Call;
use command::Command;
use failure::{Failure, Usage};
use system::System;

// Does what the arguments ask. They outlive it, so what failed can name the words that were given.
fn obey<'a>(rt: &impl System, arguments: &'a [Argument]) -> Result<(), Failure<'a>> {
    let Call {
        command,
        words,
        options,
    } = Call::parse(rt.alloc(), arguments)?;
    match (command, words.as_slice()) {
        (Command::Run, [module, card]) => run::run(rt, module, card, options),
        (Command::Trace, [module, card]) => trace::trace(rt, module, card, options),
        (Command::Answer, [module, session, value]) => {
            answer::answer(rt, module, session, value, options)
        }
        (Command::Decode, [word]) => decode::decode(rt, word),
        (Command::Show, [session]) => show::show(rt, session),
        (Command::Help, []) => Ok(help::help(rt)?),
        _ => Err(Failure::Usage(Usage::Missing(command))),
    }
}

fn main(rt: HostRuntime) {
    match args::read(&rt) {
        Ok(arguments) => {
            if let Err(failure) = obey(&rt, arguments.as_slice()) {
                message::tell(&rt, failure);
            }
        }
        Err(_) => message::tell(&rt, Failure::Memory),
    }
}
