// Writing files, all or none. Each goes whole into NAME.new beside it; only when all of these are complete are they renamed.
use crate::call::Options;
use crate::failure::Failure;
use crate::system;
use crate::system::System;
use session::Session;
use std::alloc::{AllocError, Global};
use std::fs::OpenFile;
use std::io;
use std::io::{ErrorKind, Write};

// What is behind the name of a file that is not complete yet.
pub const NEW: &str = ".new";

// The longest file of a session.
const SESSION: usize = 285;

// A file, and the bytes that it is to have.
#[derive(Clone, Copy)]
pub struct Target<'a, 'b> {
    pub path: &'a [u8],
    pub bytes: &'b [u8],
}

// The same, with the path of NAME.new: it is there before anything is written, since memory may run out.
#[derive(Drop)]
struct Replacement<'a, 'b> {
    target: Target<'a, 'b>,
    new_path: Vec<u8>,
}

// Writes all bytes to the disk.
fn fill(mut file: impl Write + OpenFile + Drop, bytes: &[u8]) -> io::Result<()> {
    file.write_all(bytes)?;
    file.sync_all()
}

// A file, of this name and what is behind it, cannot be written, and none was changed.
fn unwritten<'a>(path: &'a [u8], behind: &'static str, error: io::Error) -> Failure<'a> {
    Failure::Unwritten {
        path,
        behind,
        error,
    }
}

impl<'a, 'b> Replacement<'a, 'b> {
    fn new(alloc: Global, target: Target<'a, 'b>) -> Result<Replacement<'a, 'b>, AllocError> {
        let mut new_path = Vec::from_slice(alloc, target.path)?;
        new_path.extend_from_slice(NEW.as_bytes())?;
        Ok(Replacement { target, new_path })
    }

    // A file may be replaced if it is not there yet, or a plain one that may be written: a device, a pipe or a terminal has nothing
    // to synchronize, and its name would be lost.
    fn check(&self, rt: &impl System) -> Result<(), Failure<'a>> {
        let path = self.target.path;
        match system::open_update(rt, path) {
            Ok(file) => file.sync_all().map_err(|_| Failure::NotPlain(path)),
            Err(error) if error.kind() == ErrorKind::NotFound => Ok(()),
            Err(error) => Err(unwritten(path, "", error)),
        }
    }

    // Makes NAME.new. Where that fails there is none afterwards, but one that was there before.
    fn make(&self, rt: &impl System) -> Result<(), Failure<'a>> {
        let path = self.target.path;
        let file = system::create(rt, &self.new_path).map_err(|error| unwritten(path, NEW, error))?;
        let filled = fill(file, self.target.bytes);
        if filled.is_err() {
            self.discard(rt);
        }
        filled.map_err(|error| unwritten(path, NEW, error))
    }

    // Removes NAME.new.
    fn discard(&self, rt: &impl System) {
        let _ = system::remove(rt, &self.new_path);
    }

    // NAME.new becomes NAME.
    fn rename(&self, rt: &impl System) -> io::Result<()> {
        system::rename(rt, &self.new_path, self.target.path)
    }
}

fn make_all<'a>(rt: &impl System, files: &[Replacement<'a, '_>]) -> Result<(), Failure<'a>> {
    for (made, file) in files.iter().enumerate() {
        if let Err(failure) = file.make(rt) {
            for before in files.iter().take(made) {
                before.discard(rt);
            }
            return Err(failure);
        }
    }
    Ok(())
}

fn rename_all<'a>(rt: &impl System, files: &[Replacement<'a, '_>]) -> Result<(), Failure<'a>> {
    let mut renamed = None;
    for file in files {
        let path = file.target.path;
        if let Err(error) = file.rename(rt) {
            return match renamed {
                Some(first) => Err(Failure::Half {
                    first,
                    second: path,
                    error,
                }),
                None => {
                    for new in files {
                        new.discard(rt);
                    }
                    Err(unwritten(path, "", error))
                }
            };
        }
        renamed = Some(path);
    }
    Ok(())
}

// Writes a card, if there is one, and the session that goes with it, to --to or back to where it came from, unless nothing is to be
// written.
pub fn all<'a>(
    rt: &impl System,
    options: Options<'a>,
    card: Option<Target<'a, '_>>,
    from: Option<&'a [u8]>,
    session: Session,
) -> Result<(), Failure<'a>> {
    if options.is_dry {
        return Ok(());
    }
    // The buffer is as long as the proved call may need.
    let mut bytes = [0u8; SESSION];
    let n = writer::write(session, &mut bytes)?;
    let file = options.to.or(from).map(|path| Target {
        path,
        bytes: bytes.get(..n).unwrap_or(&[]),
    });
    let mut files = Vec::new(rt.alloc());
    for target in [card, file].into_iter().flatten() {
        files.push(Replacement::new(rt.alloc(), target)?)?;
    }
    for file in &files {
        file.check(rt)?;
    }
    make_all(rt, &files)?;
    rename_all(rt, &files)
}

#[cfg(test)]
mod tests {
    use super::*;
    use crate::load;

    // No clause can say that there is memory, nor what stands in a file: a card and a session are written, and read back.
    #[test]
    fn what_is_written_is_read(rt: HostRuntime) {
        let card = Target {
            path: b"tried.card",
            bytes: b"sixteen letters ",
        };
        let options = Options {
            to: Some(b"tried.session"),
            ..Options::default()
        };
        let saved = all(&rt, options, Some(card), None, Session::start());
        assert!(rt; saved.is_ok());
        let bytes = load::bytes(&rt, b"tried.card");
        assert!(rt; bytes.is_ok_and(|bytes| bytes.as_slice() == b"sixteen letters ".as_slice()));
        let session = load::paused(&rt, b"tried.session");
        assert!(rt; session.is_ok_and(|session| session == Session::start()));
        assert!(rt; system::remove(&rt, b"tried.card").is_ok());
        assert!(rt; system::remove(&rt, b"tried.session").is_ok());
    }
}
