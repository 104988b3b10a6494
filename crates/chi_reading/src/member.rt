//! The members of a trace and of an event.

ghost use Rattle.std.specs.Prelude.{◌≡◌};
ghost use Rattle.chi_reading.specs.Member.{member_name};

use chi_json::Named;

/// A member of the object that a trace or an event is, or of a request of a trace.
///
/// - `Base` to `Requests`, and `Final`, are a trace's. `Granules`, `Image` and `Final` may be left out.
/// - `Src` to `Lanes` are a request's, of a trace and of an event.
/// - `Start`, `End`, `Reply` and `Refused` are of a request of a trace, and `Final` and `Reply` also of events.
/// - `Event` to `Reason` are of events alone.
#[derive(Clone, Copy, Debug, PartialEq, Eq)]
pub enum Member {
    Base,
    Granules,
    Image,
    Requests,
    Src,
    Txn,
    Opcode,
    Size,
    Addr,
    Endian,
    Be,
    Lanes,
    Final,
    Start,
    End,
    Reply,
    Refused,
    Event,
    Time,
    Id,
    Bytes,
    Length,
    Reason,
}

impl Member {
    /// The member's name in the object.
    ///
    /// ```
    /// let name = Member::Opcode.name(); // op
    /// ```
    pub fn name(self) -> &'static str
        ensures { result.now ≡ member_name self }
    {
        match self {
            Member::Base => "base",
            Member::Granules => "granules",
            Member::Image => "image",
            Member::Requests => "requests",
            Member::Src => "src",
            Member::Txn => "txn",
            Member::Opcode => "op",
            Member::Size => "size",
            Member::Addr => "addr",
            Member::Endian => "endian",
            Member::Be => "be",
            Member::Lanes => "lanes",
            Member::Final => "final",
            Member::Start => "start",
            Member::End => "end",
            Member::Reply => "reply",
            Member::Refused => "refused",
            Member::Event => "event",
            Member::Time => "time",
            Member::Id => "id",
            Member::Bytes => "bytes",
            Member::Length => "length",
            Member::Reason => "reason",
        }
    }
}

impl Named for Member {
    ghost name_of = { member_name };

    fn name(self) -> &'static str {
        Member::name(self)
    }

    fn wanted(self) -> &'static str {
        match self {
            Member::Base | Member::Start | Member::End | Member::Time | Member::Id => {
                "a whole number below 2^64"
            }
            Member::Addr => {
                "an address: a whole number below 2^64, of a word a multiple of 8 below 2^52"
            }
            Member::Granules | Member::Src | Member::Txn | Member::Be => {
                "a whole number up to 65535"
            }
            Member::Opcode => "a whole number up to 255",
            Member::Size => "a whole number up to 7",
            Member::Endian => "0 or 1",
            Member::Lanes => "32 hex digits",
            Member::Bytes => "16 hex digits",
            Member::Image => "the words of granules",
            Member::Final => "the words of granules, or of a word true or false",
            Member::Requests => "a list",
            Member::Reply => "comp, 32 hex digits or null",
            Member::Refused | Member::Reason => "the name of a refusal",
            Member::Event => "the name of an event",
            Member::Length => "a whole number from 1 to 4096, of bytes below 2^52",
        }
    }
}

/// The members of a trace.
pub(crate) const TRACE: [Member; 5] = [
    Member::Base,
    Member::Granules,
    Member::Image,
    Member::Final,
    Member::Requests,
];

/// The fields of a request, of a trace and of an event, and its data.
pub(crate) const REQUEST: [Member; 8] = [
    Member::Src,
    Member::Txn,
    Member::Opcode,
    Member::Size,
    Member::Addr,
    Member::Endian,
    Member::Be,
    Member::Lanes,
];
