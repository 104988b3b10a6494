//! Tests of reading an input up to a limit.

use crate::tests::comparison::{assert_same, assert_text};
use chi_json::{InputFault, read_input};
use std::io::{self, Read};
use std::process::Abort;

// A reader of a text that gives so many bytes a call at most, and fails once it has been called so many times.
#[derive(Drop)]
struct SlowReader<'a> {
    text: &'a [u8],
    most: usize,
    calls: usize,
}

impl Read for SlowReader<'_> {
    fn read(&mut self, buf: &mut [u8]) -> io::Result<usize> {
        if self.calls == 0 {
            return Err(io::Error::from(io::ErrorKind::Other));
        }
        self.calls -= 1;
        let n = buf.len().min(self.most).min(self.text.len());
        buf[..n].copy_from_slice(&self.text[..n]);
        self.text = &self.text[n..];
        Ok(n)
    }
}

// Compares what is read of a text up to a limit.
fn assert_read<R: AllocGlobal + Abort, F: Read>(
    rt: &R,
    from: &mut F,
    text: &[u8],
    most: usize,
    wanted: Option<InputFault>,
) {
    let case = (text.len(), most);
    match read_input(rt.alloc(), from, most) {
        Ok(input) => {
            let found = (None, input.as_slice());
            assert_same(rt, (case, found), (case, (wanted, text)));
        }
        Err(fault) => assert_same(rt, (case, Some(fault)), (case, wanted)),
    }
}

#[test]
fn inputs_up_to_a_limit(rt: HostRuntime) {
    for (text, most, wanted) in &[
        ("", 0, None),
        ("a", 0, Some(InputFault::TooLong)),
        ("abc", 4, None),
        ("abcd", 4, None),
        ("abcde", 4, Some(InputFault::TooLong)),
        ("abcde", usize::MAX, None),
    ] {
        for step in [1, 2, 4096] {
            let mut from = SlowReader {
                text: text.as_bytes(),
                most: step,
                calls: 9,
            };
            assert_read(&rt, &mut from, text.as_bytes(), *most, *wanted);
        }
    }
}

// 4,096 bytes are read at once.
#[test]
fn inputs_of_several_reads(rt: HostRuntime) {
    let text = [b'x'; 8193];
    for length in [4095, 4096, 4097, 8192, 8193] {
        let whole = &text[..length];
        let mut from = whole;
        assert_read(&rt, &mut from, whole, length, None);
        let mut from = whole;
        let short = Some(InputFault::TooLong);
        assert_read(&rt, &mut from, whole, length - 1, short);
    }
}

#[test]
fn inputs_that_fail(rt: HostRuntime) {
    for calls in 0..6 {
        let mut from = SlowReader {
            text: b"abcde",
            most: 1,
            calls,
        };
        let input = read_input(rt.alloc(), &mut from, 9);
        assert_same(&rt, (calls, input.err()), (calls, Some(InputFault::Read)));
    }
}

#[test]
fn input_fault_texts(rt: HostRuntime) {
    assert_text(&rt, InputFault::Read, "input could not be read");
    assert_text(&rt, InputFault::TooLong, "input is too long");
    assert_text(&rt, InputFault::Memory, "no memory");
}
