//! The members of a flit's object.

ghost use Rattle.std.specs.Prelude.{◌≡◌};
ghost use Rattle.chi_flit_text.specs.Member.{member_name};

use chi_json::Named;

/// A member of the object that states a flit.
///
/// - `Channel`, `Time` and `Valid` are of each flit and each point, and so is `Txn`. `Valid` may be left out. `Opcode` is of each flit.
/// - `Src` is of requests, of data to the home and of points, and `Tgt` of responses and of data of the home.
/// - `Size` to `Excl` are of requests, and the last two, `Endian` and `Excl`, may be left out.
/// - `RespErr` is of responses and of data, and `Dbid` of responses.
/// - `DataId` and `Data` are of data, and `Be` of data to the home, which may leave `RespErr` out.
#[derive(Clone, Copy, Debug, PartialEq, Eq)]
pub enum FlitMember {
    Channel,
    Time,
    Src,
    Tgt,
    Txn,
    Opcode,
    Size,
    Addr,
    Endian,
    Excl,
    RespErr,
    Dbid,
    DataId,
    Be,
    Data,
    Valid,
}

impl FlitMember {
    /// The member's name in the object.
    ///
    /// ```
    /// let name = FlitMember::RespErr.name(); // resp_err
    /// ```
    pub fn name(self) -> &'static str
        ensures { result.now ≡ member_name self }
    {
        match self {
            FlitMember::Channel => "channel",
            FlitMember::Time => "time",
            FlitMember::Src => "src",
            FlitMember::Tgt => "tgt",
            FlitMember::Txn => "txn",
            FlitMember::Opcode => "opcode",
            FlitMember::Size => "size",
            FlitMember::Addr => "addr",
            FlitMember::Endian => "endian",
            FlitMember::Excl => "excl",
            FlitMember::RespErr => "resp_err",
            FlitMember::Dbid => "dbid",
            FlitMember::DataId => "data_id",
            FlitMember::Be => "be",
            FlitMember::Data => "data",
            FlitMember::Valid => "valid",
        }
    }
}

impl Named for FlitMember {
    ghost name_of = { member_name };

    fn name(self) -> &'static str {
        FlitMember::name(self)
    }

    fn wanted(self) -> &'static str {
        match self {
            FlitMember::Channel => "REQ, RSP, RDAT, WDAT or POINT",
            FlitMember::Time => "a whole number below 2^64",
            FlitMember::Src | FlitMember::Tgt | FlitMember::Txn | FlitMember::Dbid => {
                "1 to 16 hex digits, x or z, up to ffff"
            }
            FlitMember::Opcode => "1 to 16 hex digits, x or z, up to ff",
            FlitMember::Size => "1 to 16 hex digits, x or z, up to 7",
            FlitMember::Addr => "1 to 16 hex digits, x or z, up to fffffffffffff",
            FlitMember::Endian | FlitMember::Excl => "1 to 16 hex digits, x or z, up to 1",
            FlitMember::RespErr | FlitMember::DataId => "1 to 16 hex digits, x or z, up to 3",
            FlitMember::Be => "4, 8 or 16 hex digits, x or z: an eighth of those of data",
            FlitMember::Data => "32, 64 or 128 hex digits, x or z",
            FlitMember::Valid => "1, x or z",
        }
    }
}
