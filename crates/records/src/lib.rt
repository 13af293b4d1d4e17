// The records that cross to C: plain numbers only, since a caller in C can hand in any byte. And the way from them to the core's types and
// back.

#![tactic(auto)]

ghost use Rattle.std.specs.Prelude.{◌≡◌};
ghost use Rattle.records.specs.Records.{session_of, record_of, left_of, reply_of, written_of, reading_of};

use file::{FileRefusal, Reading};
use place::GuestAddr;
use session::{Note, Numbers, Refusal, Reply, Session};

// A session. Where `noted` is 0 there is no note, and its two words mean nothing: the C interface has no Option.
#[repr(C)]
#[derive(Clone, Copy)]
pub struct SessionRecord {
    pub regs: [u64; 32],
    pub pc: u64,
    pub total: u64,
    pub noted: u64,
    pub low: u64,
    pub high: u64,
}

// What a run and an answer return, by 01's numbers: the C interface has no enum that holds a value.
#[repr(C)]
#[derive(Clone, Copy)]
pub struct ReplyRecord {
    pub session: SessionRecord,
    pub refused: u64,
    pub ecode: u64,
    pub subcode: u64,
    pub carried: u64,
    pub steps: u64,
}

// What a write and a read return: the C interface has no Result, so a number says whether there was a refusal.
#[repr(C)]
#[derive(Clone, Copy)]
pub struct WrittenRecord {
    pub refused: u64,
    pub length: usize,
}

#[repr(C)]
#[derive(Clone, Copy)]
pub struct ReadingRecord {
    pub session: SessionRecord,
    pub refused: u64,
    pub offset: usize,
}

// The session that a record holds.
impl From<SessionRecord> for Session {
    ghost from_gives = { λ came session. session ≡ session_of came };

    fn from(came: SessionRecord) -> Session {
        let regs = came.regs;
        let note = Note {
            low: came.low,
            high: came.high,
        };
        Session {
            regs,
            pc: GuestAddr(came.pc),
            total: came.total,
            note: (came.noted != 0).then_some(note),
        }
    }
}

// The record of a session. An absent note has no content: its words are 0.
impl From<Session> for SessionRecord {
    ghost from_gives = { λ session packed. packed ≡ record_of session };

    fn from(session: Session) -> SessionRecord {
        let regs = session.regs;
        let (noted, low, high) = match session.note {
            Some(note) => (1, note.low, note.high),
            None => (0, 0, 0),
        };
        SessionRecord {
            regs,
            pc: session.pc.0,
            total: session.total,
            noted,
            low,
            high,
        }
    }
}

// What a call leaves of the record that came: all of it, if it was refused.
fn left(came: SessionRecord, refused: u64, session: Session) -> SessionRecord
    ensures { result ≡ left_of came refused session }
{
    if refused == 0 {
        SessionRecord::from(session)
    } else {
        came
    }
}

// The record of a reply to the session that came.
pub fn replied(came: SessionRecord, reply: Reply) -> ReplyRecord
    ensures { result ≡ reply_of came reply }
{
    let numbers = Numbers::from(reply.outcome);
    let stop = numbers.stop;
    ReplyRecord {
        session: left(came, numbers.refused, reply.session),
        refused: numbers.refused,
        ecode: stop.ecode,
        subcode: stop.subcode,
        carried: stop.carried,
        steps: reply.steps,
    }
}

// A refused write has the length 0.
impl From<Result<usize, Refusal>> for WrittenRecord {
    ghost from_gives = { λ written packed. packed ≡ written_of written };

    fn from(written: Result<usize, Refusal>) -> WrittenRecord {
        WrittenRecord {
            refused: refuse::number(written),
            length: file::length_written(written),
        }
    }
}

// A refused read has the fresh session.
impl From<Result<Reading, FileRefusal>> for ReadingRecord {
    ghost from_gives = { λ reading packed. packed ≡ reading_of reading };

    fn from(reading: Result<Reading, FileRefusal>) -> ReadingRecord {
        ReadingRecord {
            session: SessionRecord::from(file::session_read(reading)),
            refused: file::number_read(reading),
            offset: file::offset_read(reading),
        }
    }
}
