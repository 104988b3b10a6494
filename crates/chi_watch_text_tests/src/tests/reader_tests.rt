//! Readers that give little at a time, and fail, and writers that do.

use crate::tests::comparison::assert_same;
use crate::tests::events::{FIVE, LAST, READ, STOPPING, WRITE, ZERO, joined};
use chi_judge::Standing;
use chi_search::NoProgress;
use chi_watch_text::{LinesFault, watch_lines};
use std::io::{self, BufReader, Read, Write};
use std::test::Fail;

// A reader of a text that gives so many bytes a call at most, and fails where the text would end.
#[derive(Drop)]
struct FailingReader<'a> {
    text: &'a [u8],
    most: usize,
}

impl Read for FailingReader<'_> {
    fn read(&mut self, buf: &mut [u8]) -> io::Result<usize> {
        if self.text.is_empty() {
            return Err(io::Error::from(io::ErrorKind::Other));
        }
        let n = buf.len().min(self.most).min(self.text.len());
        buf[..n].copy_from_slice(&self.text[..n]);
        self.text = &self.text[n..];
        Ok(n)
    }
}

// Lines before a read that fails, and what comes of them.
static FAILING: [(&[&str], Result<Standing, LinesFault>); 7] = [
    (&[], Err(LinesFault::Read)),
    (&[WRITE], Err(LinesFault::Read)),
    (&[WRITE, "{\"time\":3,"], Err(LinesFault::Read)),
    (&[WRITE, READ, FIVE], Err(LinesFault::Read)),
    (&[WRITE, READ, ZERO], Err(LinesFault::Read)),
    (&[WRITE, READ, ZERO, "\n"], Err(LinesFault::Read)),
    (&[WRITE, READ, ZERO, "\n", LAST], Ok(Standing::Unexplained)),
];

// A granule is found before the read that fails only if the whole line of a later event was read.
#[test]
fn reads_that_fail(rt: HostRuntime) -> Result<(), Fail> {
    for (texts, wanted) in &FAILING {
        let text = joined(rt.alloc(), texts)?;
        for most in [1, 7, 4096] {
            let from = FailingReader { text: &text, most };
            let mut lines = BufReader::new(rt.alloc(), from)?;
            let mut out = Vec::new(rt.alloc());
            let found = match watch_lines(
                rt.alloc(),
                &mut lines,
                &mut out,
                &STOPPING,
                &mut NoProgress,
            ) {
                Ok(watched) => Ok(watched.verdict()),
                Err(unfinished) => Err(unfinished.fault),
            };
            assert_same(
                &rt,
                (texts.len(), most, found),
                (texts.len(), most, *wanted),
            );
        }
    }
    Ok(())
}

// A writer that has room for so many bytes, and then fails, as its flush may.
#[derive(Drop)]
struct FailingWriter {
    room: usize,
    flushes: bool,
}

impl Write for FailingWriter {
    fn write(&mut self, buf: &[u8]) -> io::Result<usize> {
        if self.room == 0 {
            return Err(io::Error::from(io::ErrorKind::Other));
        }
        let n = buf.len().min(self.room);
        self.room -= n;
        Ok(n)
    }

    fn flush(&mut self) -> io::Result<()> {
        if self.flushes {
            Ok(())
        } else {
            Err(io::Error::from(io::ErrorKind::Other))
        }
    }
}

// A granule that cannot be told ends the watch, and nothing else is written to.
#[test]
fn granules_that_cannot_be_told(rt: HostRuntime) -> Result<(), Fail> {
    for (room, flushes, last, wanted) in &[
        (0, true, FIVE, Ok(Standing::Explained)),
        (0, true, ZERO, Err(LinesFault::Write)),
        (40, true, ZERO, Err(LinesFault::Write)),
        (4096, true, ZERO, Ok(Standing::Unexplained)),
        (4096, false, ZERO, Err(LinesFault::Write)),
    ] {
        let text = joined(rt.alloc(), &[WRITE, READ, last])?;
        let mut lines = text.as_slice();
        let mut out = FailingWriter {
            room: *room,
            flushes: *flushes,
        };
        let found = match watch_lines(
            rt.alloc(),
            &mut lines,
            &mut out,
            &STOPPING,
            &mut NoProgress,
        ) {
            Ok(watched) => Ok(watched.verdict()),
            Err(unfinished) => Err(unfinished.fault),
        };
        assert_same(&rt, (*room, found), (*room, *wanted));
    }
    Ok(())
}
