// All that the program can do, in one screen.
use crate::system::System;
use std::io;

pub fn help(rt: &impl System) -> io::Result<()> {
    rt.write_all(
        b"qhobuziya: runs LoongArch LA64 fare modules, by proved host calls on files

  qhobuziya run MODULE CARD [--from SESSION] [--to SESSION] [--budget N] [--dry]
      runs MODULE on the window CARD, and writes CARD and the session back
  qhobuziya trace MODULE CARD [--from SESSION] [--budget N]
      the same, a line for each step; writes no file
  qhobuziya answer MODULE SESSION VALUE [--to SESSION] [--dry]
      answers the service call at which SESSION stopped: VALUE goes into r4
  qhobuziya decode WORD
      the instruction of a word of 1 to 8 hex digits
  qhobuziya show SESSION
      what a paused session holds
  qhobuziya help

MODULE: code bytes. CARD: the window's bytes. SESSION: a paused session's file.
--from  the session to go on from; without it a new one, pc 0x10000, else zero
--to    where the session goes; without it back to --from, or nowhere
--budget  the most steps, decimal; 1000000 if not given, and at most that
--dry   writes no file
VALUE is decimal, or 0x and hex digits. What begins with - is an option: a file
of such a name is ./-name. Results go to standard output, messages to standard
error. Files are replaced when all went well, and never half.
",
    )
}
