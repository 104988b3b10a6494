//! The members of a script.

ghost use Rattle.std.specs.Prelude.{◌≡◌};
ghost use Rattle.chi_script.specs.Member.{member_name};

use chi_json::Named;

/// A member of the object that a script is, or of a request in it.
///
/// - `Base` to `Requests` are the object's. `Image` may be left out.
/// - `Src` to `Lanes` are a request's.
#[derive(Clone, Copy, Debug, PartialEq, Eq)]
pub enum Member {
    Base,
    Granules,
    Image,
    Requests,
    Src,
    Txn,
    Opcode,
    Size,
    Addr,
    Endian,
    Be,
    Lanes,
}

impl Member {
    /// The member's name in the object.
    ///
    /// ```
    /// let name = Member::Opcode.name(); // op
    /// ```
    pub fn name(self) -> &'static str
        ensures { result.now ≡ member_name self }
    {
        match self {
            Member::Base => "base",
            Member::Granules => "granules",
            Member::Image => "image",
            Member::Requests => "requests",
            Member::Src => "src",
            Member::Txn => "txn",
            Member::Opcode => "op",
            Member::Size => "size",
            Member::Addr => "addr",
            Member::Endian => "endian",
            Member::Be => "be",
            Member::Lanes => "lanes",
        }
    }
}

impl Named for Member {
    ghost name_of = { member_name };

    fn name(self) -> &'static str {
        Member::name(self)
    }
}
