// The paused session's file: what a read returns, and how far a reader has come. A write returns the file's length, or its refusal.

#![tactic(auto)]

ghost use Rattle.std.specs.Prelude.{◌≡◌};
ghost use Rattle.file.specs.Reading.{number_read, offset_read, session_of_read};
ghost use Rattle.file.specs.Writing.{length_written};

use session::{Refusal, Session};

// What an accepted read returns: the session, and the file's length as the offset.
#[derive(Clone, Copy)]
pub struct Reading {
    pub session: Session,
    pub offset: usize,
}

// What a refused read returns: the offset is that of what was refused. The session is then fresh: `session_read` gives it.
#[derive(Clone, Copy)]
pub struct FileRefusal {
    pub refusal: Refusal,
    pub offset: usize,
}

// A reader's cursor: where the next kind is due, and the session as far as it is known there.
#[derive(Clone, Copy)]
pub struct Cursor {
    pub at: usize,
    pub session: Session,
}

// What a read and a write return by 01's words, whether they are refused or not. A refused read returns the fresh session.
pub fn session_read(read: Result<Reading, FileRefusal>) -> Session
    ensures { result ≡ session_of_read read }
{
    match read {
        Ok(accepted) => accepted.session,
        Err(_) => Session::fresh(),
    }
}

// The refusal's number, or 0.
pub fn number_read(read: Result<Reading, FileRefusal>) -> u64
    ensures { result ≡ number_read read }
{
    match read {
        Ok(_) => 0,
        Err(refused) => u64::from(refused.refusal),
    }
}

pub fn offset_read(read: Result<Reading, FileRefusal>) -> usize
    ensures { result ≡ offset_read read }
{
    match read {
        Ok(accepted) => accepted.offset,
        Err(refused) => refused.offset,
    }
}

// A refused write returns length 0.
pub fn length_written(written: Result<usize, Refusal>) -> usize
    ensures { result ≡ length_written written }
{
    written.unwrap_or(0)
}
