// What is said of a failure. A refusal is a result, on standard output. All else is a message for people: one line on standard error that
// begins with the program's name.
use crate::args::{LONGEST, Unsound};
use crate::failure::{Failure, Usage};
use crate::save::NEW;
use crate::system::System;
use file::FileRefusal;
use names::Line;
use session::Refusal;
use std::io::Write;
use std::{fmt, io, str};

// A word that was given, and what is behind it, in one write. It need not be text, and no byte of it breaks a line.
fn write_word(out: &mut impl Write, word: &[u8], behind: &str) -> io::Result<()> {
    let mut shown = [0u8; LONGEST + NEW.len()];
    let bytes = word.iter().chain(behind.as_bytes());
    for (place, byte) in shown.iter_mut().zip(bytes) {
        *place = if byte.is_ascii_control() { b'?' } else { *byte };
    }
    out.write_all(shown.get(..word.len() + behind.len()).unwrap_or(&shown))
}

// What is said of a word, then the word.
fn write_about(out: &mut impl Write, what: &str, word: &[u8]) -> io::Result<()> {
    write!(out, "{what}: ")?;
    write_word(out, word, "")
}

// The same of a file that cannot be written, before any is changed.
fn write_unchanged(out: &mut impl Write, path: &[u8], behind: &str) -> io::Result<()> {
    out.write_all(b"no file was changed: ")?;
    write_word(out, path, behind)
}

// The system's words for what went wrong, without its number behind them. A line has room for them: a message asks for no memory.
fn words_of(reason: &str) -> &str {
    match reason.rsplit_once(" (os error ") {
        Some((words, _)) => words,
        None => reason,
    }
}

fn write_error(out: &mut impl Write, error: io::Error) -> io::Result<()> {
    let mut reason = Line::empty();
    let _ = fmt::Write::write_fmt(&mut reason, format_args!("{error}"));
    let reason = str::from_utf8(reason.written()).unwrap_or("");
    writeln!(out, ": {}", words_of(reason))
}

// What the number of a refusal stands for, in document 01's words.
fn sentence(refusal: Refusal) -> &'static str {
    match refusal {
        Refusal::CodeLength => "code length over 65,536 or not a multiple of 4",
        Refusal::WindowLength => "window length over 65,536",
        Refusal::WindowPlace => {
            "window offset plus window length, as whole numbers, exceeds the arena's length"
        }
        Refusal::ZeroRegister => "register 0 of the session given is not zero",
        Refusal::Budget => "budget over 1,000,000",
        Refusal::Total => "total plus budget exceeds 2^63, as whole numbers",
        Refusal::NoSyscall => {
            "answer: the pc is not a multiple of 4 inside code, or the word there is no SYSCALL"
        }
        Refusal::FileKind => "reading: a kind byte not allowed at that place",
        Refusal::FileCut => "reading: the file ends where a kind or part of a body is due",
        Refusal::FileExtra => "reading: bytes after the end mark",
        Refusal::BufferLength => "writing: the buffer is too short",
    }
}

// A refused call: its number, then the sentence. Each line is one write, since several runs may share an output.
fn print_refusal(rt: &impl System, refusal: Refusal) -> io::Result<()> {
    println!(rt; "refused {}", u64::from(refusal))?;
    println!(rt; "{}", sentence(refusal))
}

// A refused read also has an offset.
fn print_refused_file(rt: &impl System, path: &[u8], refused: FileRefusal) -> io::Result<()> {
    print_refusal(rt, refused.refusal)?;
    write_word(&mut io::writer(rt), path, "")?;
    println!(rt; ": offset {}", refused.offset)
}

fn write_unsound(out: &mut impl Write, unsound: Unsound) -> io::Result<()> {
    match unsound {
        Unsound::Empty(place) => write!(out, "argument {place} is empty"),
        Unsound::TooLong(place) => write!(out, "argument {place} is longer than 4,091 bytes"),
    }
}

fn write_usage(out: &mut impl Write, usage: Usage<'_>) -> io::Result<()> {
    match usage {
        Usage::Nothing => write!(out, "no command is given"),
        Usage::Unsound(unsound) => write_unsound(out, unsound),
        Usage::NoCommand(word) => write_about(out, "there is no such command", word),
        Usage::Missing(command) => write!(out, "{command} needs {}", command.needs()),
        Usage::TooMany(word) => write_about(out, "one argument too many", word),
        Usage::NoOption(command, word) => {
            write!(out, "{command} has no option ")?;
            write_word(out, word, "")
        }
        Usage::NoValue(flag) => write!(out, "{flag} has no value"),
        Usage::Twice(flag) => write!(out, "{flag} is given twice"),
        Usage::TwoPlaces(word) => write_about(out, "one file is given in two places", word),
        Usage::Numeral(quantity, error, word) => {
            write_about(out, quantity.complaint(error), word)
        }
    }
}

// The second of two files could not be replaced, after the first was.
fn write_half(out: &mut impl Write, first: &[u8], second: &[u8]) -> io::Result<()> {
    write_word(out, first, "")?;
    write!(out, " was replaced, and what belongs with it waits in ")?;
    write_word(out, second, NEW)?;
    out.write_all(b": ")?;
    write_word(out, second, "")
}

fn write_failure(out: &mut impl Write, failure: Failure<'_>) -> io::Result<()> {
    match failure {
        // These are results, which `tell` prints.
        Failure::Refused(_) | Failure::RefusedFile(..) => Ok(()),
        Failure::Usage(usage) => {
            write_usage(out, usage)?;
            writeln!(out, "; try: qhobuziya help")
        }
        Failure::Unread(path, error) => {
            write_word(out, path, "")?;
            write_error(out, error)
        }
        Failure::Unwritten {
            path,
            behind,
            error,
        } => {
            write_unchanged(out, path, behind)?;
            write_error(out, error)
        }
        Failure::NotPlain(path) => {
            write_unchanged(out, path, "")?;
            writeln!(out, ": only a plain file can be replaced")
        }
        Failure::Half {
            first,
            second,
            error,
        } => {
            write_half(out, first, second)?;
            write_error(out, error)
        }
        Failure::Output(error) => {
            write!(out, "standard output")?;
            write_error(out, error)
        }
        Failure::Memory => writeln!(out, "out of memory"),
    }
}

// A message. There is nobody to tell that it could not be written.
fn complain(rt: &impl System, failure: Failure<'_>) {
    let mut errors = rt.errors();
    let _ = errors.write_all(b"qhobuziya: ");
    let _ = write_failure(&mut errors, failure);
}

pub fn tell(rt: &impl System, failure: Failure<'_>) {
    let printed = match failure {
        Failure::Refused(refusal) => print_refusal(rt, refusal),
        Failure::RefusedFile(path, refused) => print_refused_file(rt, path, refused),
        other => return complain(rt, other),
    };
    if let Err(error) = printed {
        complain(rt, Failure::Output(error));
    }
}
