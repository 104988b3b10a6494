//! The channels as a flit's object names them, and the members of each.

ghost use Rattle.std.specs.Prelude.{◌≡◌, map};
ghost use Rattle.chi_flit_text.specs.Member.{members_of};
ghost use Rattle.chi_flit_text.specs.Stated.{channel_named};

use crate::member::FlitMember;

/// The members that a flit of each channel may have.
const FLIT: [FlitMember; 3] = [FlitMember::Channel, FlitMember::Time, FlitMember::Valid];

/// What the member `channel` of a flit may name.
#[derive(Clone, Copy)]
pub(crate) enum Channel {
    Request,
    Response,
    ReadData,
    WriteData,
}

impl Channel {
    /// The channel of this name.
    pub(crate) fn named(name: &str) -> Option<Channel>
        ensures { result ≡ channel_named name.now }
    {
        match name {
            "REQ" => Some(Channel::Request),
            "RSP" => Some(Channel::Response),
            "RDAT" => Some(Channel::ReadData),
            "WDAT" => Some(Channel::WriteData),
            _ => None,
        }
    }

    /// The members that a flit of this channel may have.
    pub(crate) fn members(self) -> &'static [&'static [FlitMember]]
        ensures { map (λ list. list.now) result.now ≡ members_of self }
    {
        match self {
            Channel::Request => &[
                &FLIT,
                &[
                    FlitMember::Src,
                    FlitMember::Txn,
                    FlitMember::Opcode,
                    FlitMember::Size,
                    FlitMember::Addr,
                    FlitMember::Endian,
                    FlitMember::Excl,
                ],
            ],
            Channel::Response => &[
                &FLIT,
                &[
                    FlitMember::Tgt,
                    FlitMember::Txn,
                    FlitMember::Opcode,
                    FlitMember::RespErr,
                    FlitMember::Dbid,
                ],
            ],
            Channel::ReadData => &[
                &FLIT,
                &[
                    FlitMember::Tgt,
                    FlitMember::Txn,
                    FlitMember::Opcode,
                    FlitMember::RespErr,
                    FlitMember::DataId,
                    FlitMember::Data,
                ],
            ],
            Channel::WriteData => &[
                &FLIT,
                &[
                    FlitMember::Src,
                    FlitMember::Txn,
                    FlitMember::Opcode,
                    FlitMember::DataId,
                    FlitMember::Be,
                    FlitMember::Data,
                    FlitMember::RespErr,
                ],
            ],
        }
    }
}
