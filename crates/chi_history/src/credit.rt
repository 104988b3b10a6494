//! The protocol credit that comes with a RetryAck.

ghost use Rattle.std.specs.Prelude.{◌≡◌};

use std::marker::Model;

/// A credit of one requester, good for any one of its requests. A request sent on it gets no RetryAck.
///
/// It is not copied, and must be spent: it ends in `Home::serve_credited` or in `Home::return_credit`.
///
/// Source: Arm IHI 0050 Issue B, RetryAck and protocol credits; that both come in one answer is of the profile.
#[derive(Debug)]
pub struct Credit {
    src: u8,
}

impl Model for Credit {
    ghost use Rattle.std.specs.Prelude.{ℕ};

    ghost Value = { ℕ };

    ghost view = { λ c. c.src };

    ghost inverse = { λ n. record { src = n } };
}

impl Credit {
    /// A credit of this requester. For those who implement a home: nothing is proved against a caller that
    /// issues a credit itself.
    pub fn issue(src: u8) -> Credit
        ensures { result ≡ src }
    {
        Credit { src }
    }

    /// The number of the requester that the credit is of.
    pub fn src(&self) -> u8
        ensures { result ≡ self.now }
    {
        self.src
    }

    /// Ends the credit, and answers whose it was. For those who implement a home.
    pub fn spend(self) -> u8
        ensures { result ≡ self }
    {
        let Credit { src: number } = self;
        number
    }
}
