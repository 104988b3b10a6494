//! What C reads of an answer.

ghost use Rattle.std.specs.Prelude.{◌≡◌};
ghost use Rattle.chi_c.specs.Call.{data_flag, lanes_of_reply};

use chi_lanes::Reply;

// Writes the answer's 16 lanes, all 0 where it has no data, and whether it has data.
#[inline]
pub(crate) fn write_answer(reply: Reply, reply_lanes: &mut [u8; 16], has_lanes: &mut u8)
    ensures lanes { reply_lanes.new ≡ lanes_of_reply reply }
    ensures flag { has_lanes.new ≡ data_flag reply }
{
    match reply {
        Reply::Comp => {
            *reply_lanes = [0; 16];
            *has_lanes = 0;
        }
        Reply::CompData(lanes) => {
            *reply_lanes = lanes;
            *has_lanes = 1;
        }
    }
}
