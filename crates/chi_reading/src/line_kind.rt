//! The kinds of event as a line names them, and the members of each.

ghost use Rattle.std.specs.Prelude.{◌≡◌, map};
ghost use Rattle.chi_reading.specs.EventText.{kind_named, members_of};

use crate::member::Member;

/// The members of a line that tells a request, in the order in which most lines have them.
const REQUEST: [Member; 11] = [
    Member::Time,
    Member::Event,
    Member::Id,
    Member::Src,
    Member::Txn,
    Member::Opcode,
    Member::Size,
    Member::Addr,
    Member::Endian,
    Member::Be,
    Member::Lanes,
];

/// What the member `event` of a line may name. A `Word` is of a granule before its first request, or after its last where
/// its member `final` says so.
#[derive(Clone, Copy)]
pub(crate) enum LineKind {
    Request,
    Data,
    Reply,
    Dropped,
    Refused,
    Word,
    Unknown,
    End,
}

impl LineKind {
    /// The kind of this name.
    pub(crate) fn named(name: &str) -> Option<LineKind>
        ensures { result ≡ kind_named name.now }
    {
        match name {
            "request" => Some(LineKind::Request),
            "data" => Some(LineKind::Data),
            "reply" => Some(LineKind::Reply),
            "dropped" => Some(LineKind::Dropped),
            "refused" => Some(LineKind::Refused),
            "word" => Some(LineKind::Word),
            "unknown" => Some(LineKind::Unknown),
            "end" => Some(LineKind::End),
            _ => None,
        }
    }

    /// The members that a line of this kind may have, in the order in which most lines have them.
    pub(crate) fn members(self) -> &'static [&'static [Member]]
        ensures { map (λ list. list.now) result.now ≡ members_of self }
    {
        match self {
            LineKind::Request => &[&REQUEST],
            LineKind::Data => &[&[
                Member::Time,
                Member::Event,
                Member::Id,
                Member::Be,
                Member::Lanes,
            ]],
            LineKind::Reply => &[&[Member::Time, Member::Event, Member::Id, Member::Reply]],
            LineKind::Dropped => &[&[Member::Time, Member::Event, Member::Id]],
            LineKind::Refused => &[&[Member::Time, Member::Event, Member::Id, Member::Reason]],
            LineKind::Word => &[&[
                Member::Time,
                Member::Event,
                Member::Addr,
                Member::Bytes,
                Member::Final,
            ]],
            LineKind::Unknown => &[&[Member::Time, Member::Event, Member::Addr, Member::Length]],
            LineKind::End => &[&[Member::Time, Member::Event]],
        }
    }
}
