//! A page of bytes that a writer has yet to take.

ghost use Rattle.std.specs.Prelude.{◌≡◌, ◌+◌, ◌≤◌, [], ◌++◌, length};
ghost use Rattle.chi_script.specs.declared.page.TheConstants.{PAGE};

use std::marker::Model;

// How many bytes a page holds.
pub(crate) const PAGE: usize = 16384;

// The bytes that a writer has yet to take, in order: at most `PAGE`.
#[derive(Drop)]
pub(crate) struct Page {
    bytes: [u8; PAGE],
    len: usize,
}

impl Model for Page {
    ghost use Rattle.std.specs.Prelude.{ℕ, List, take, ◌≤◌};
    ghost use Rattle.chi_script.specs.declared.page.TheConstants.{PAGE};

    ghost Value = { List ℕ };

    ghost view = { λ p. take p.len p.bytes };

    ghost invariant = { λ p. p.len ≤ PAGE };
}

impl Page {
    // An empty page.
    pub(crate) fn new() -> Page
        ensures { result ≡ [] }
    {
        Page {
            bytes: [0; PAGE],
            len: 0,
        }
    }

    // How many bytes more go in.
    pub(crate) fn room(&self) -> usize
        ensures { result + length self.now ≡ PAGE }
    {
        PAGE - self.len
    }

    // The bytes.
    pub(crate) fn bytes(&self) -> &[u8]
        ensures { result.now ≡ self.now }
    {
        &self.bytes[..self.len]
    }

    // Some bytes more, at the end.
    pub(crate) fn extend(&mut self, bytes: &[u8])
        requires { length self.old + length bytes.now ≤ PAGE }
        ensures { self.new ≡ self.old ++ bytes.now }
    {
        let end = self.len + bytes.len();
        self.bytes[self.len..end].copy_from_slice(bytes);
        self.len = end;
    }

    // No byte left.
    pub(crate) fn clear(&mut self)
        ensures { self.new ≡ [] }
    {
        self.len = 0;
    }
}
