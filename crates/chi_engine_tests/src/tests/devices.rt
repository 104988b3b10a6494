//! Readers and writers that give or take few bytes a call, and end early.

use crate::tests::answers::{Engine, execute};
use crate::tests::comparison::assert_same;
use crate::tests::scripts::FETCH_ADD_SCRIPT;
use chi_engine::{EngineFault, Options};
use chi_script::WriteFault;
use std::io::{self, Read, Write};
use std::process::Abort;
use std::sync::Wait;
use std::thread::Threads;

// How a writer ends: by a fault, or by taking no byte.
#[derive(Clone, Copy, PartialEq, Eq)]
pub(crate) enum End {
    Fault,
    Stuck,
}

// A writer that takes so many bytes at a call and in all.
#[derive(Drop)]
pub(crate) struct ShortWriter {
    pub(crate) taken: Vec<u8>,
    pub(crate) room: usize,
    pub(crate) at_once: usize,
    pub(crate) end: End,
}

impl Write for ShortWriter {
    fn write(&mut self, buf: &[u8]) -> io::Result<usize> {
        let n = buf.len().min(self.room).min(self.at_once);
        if n == 0 && self.end == End::Fault {
            return Err(io::Error::from(io::ErrorKind::Other));
        }
        self.taken.extend_from_slice(&buf[..n])?;
        self.room -= n;
        Ok(n)
    }

    fn flush(&mut self) -> io::Result<()> {
        Ok(())
    }
}

// A reader of a text that gives so many bytes at a call, and fails once it has given so many in all.
#[derive(Drop)]
pub(crate) struct ShortReader<'a> {
    pub(crate) text: &'a [u8],
    pub(crate) left: usize,
    pub(crate) at_once: usize,
}

impl Read for ShortReader<'_> {
    fn read(&mut self, buf: &mut [u8]) -> io::Result<usize> {
        if self.left == 0 {
            return Err(io::Error::from(io::ErrorKind::Other));
        }
        let n = buf
            .len()
            .min(self.left)
            .min(self.at_once)
            .min(self.text.len());
        buf[..n].copy_from_slice(&self.text[..n]);
        self.text = &self.text[n..];
        self.left -= n;
        Ok(n)
    }
}

// The fault of the writer.
fn write_fault(outcome: Result<(), EngineFault>) -> Option<WriteFault> {
    match outcome {
        Err(EngineFault::Write(fault)) => Some(fault),
        _ => None,
    }
}

// The first fetch-add, to a writer with room for just these bytes: it takes them, and the fault is told.
pub(crate) fn assert_cut<T: AllocGlobal + Abort + Threads + Wait + Sync>(
    rt: &T,
    engine: Engine,
    options: &Options,
    (end, want): (End, WriteFault),
    bytes: &[u8],
) {
    let mut to = ShortWriter {
        taken: Vec::new(rt.alloc()),
        room: bytes.len(),
        at_once: usize::MAX,
        end,
    };
    let mut from = FETCH_ADD_SCRIPT.as_bytes();
    let fault = write_fault(execute(rt, engine, options, &mut from, &mut to));
    assert_same(&rt, (fault, to.taken.as_slice()), (Some(want), bytes));
}

// The first fetch-add, from a reader that fails after so many bytes: this is told, and nothing is written.
fn assert_unread<T: AllocGlobal + Abort + Threads + Wait + Sync>(
    rt: &T,
    engine: Engine,
    options: &Options,
    at_once: usize,
    left: usize,
) {
    let mut to: Vec<u8> = Vec::new(rt.alloc());
    let mut from = ShortReader {
        text: FETCH_ADD_SCRIPT.as_bytes(),
        left,
        at_once,
    };
    let outcome = execute(rt, engine, options, &mut from, &mut to);
    let is_told = matches!(&outcome, Err(EngineFault::Read));
    assert_same(&rt, (left, (is_told, to.len())), (left, (true, 0)));
}

// The first fetch-add, from each reader that fails. With the whole text given, it is the call that would find the
// end that fails.
pub(crate) fn assert_never_read<T: AllocGlobal + Abort + Threads + Wait + Sync>(
    rt: &T,
    engine: Engine,
    options: &Options,
    at_once: usize,
) {
    for left in 0..=FETCH_ADD_SCRIPT.len() {
        assert_unread(rt, engine, options, at_once, left);
    }
}
