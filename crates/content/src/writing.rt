// What each kind is written as: the octets before its info. And what is not written at all, whatever the room.
ghost use Rattle.std.specs.Prelude.{◌≡◌, length};
ghost use Rattle.control.specs.Spell.{four};
ghost use Rattle.content.specs.Spell.{has_info, is_response, front};
ghost use Rattle.content.specs.Refused.{is_frame_reject, long_frmr, stray_info, stray_pid};

use super::{CommandResponse, FrameContent, FrameReject};
use control::Mode;

// No `From` to a bool: what true means is FRMR's alone.
fn is_response(c: CommandResponse) -> bool
    ensures { result ≡ is_response c }
{
    matches!(c, CommandResponse::Response)
}

impl FrameReject {
    // The four octets of an FRMR.
    fn front(self) -> [u8; 4]
        ensures { result ≡ front Mode.Short (FrameContent.FrameReject self) }
    {
        let response = is_response(self.command_response);
        [
            control::unnumbered(0b1000_0111, self.final_bit),
            control::flags(self.z, self.y, self.x, self.w),
            control::i_octet(self.receive_sequence, response, self.send_sequence),
            self.rejected_control_field_raw,
        ]
    }
}

impl FrameContent {
    pub fn has_info(self) -> bool
        ensures { result ≡ has_info self }
    {
        matches!(
            self,
            FrameContent::Information(_)
                | FrameContent::UnnumberedInformation(_)
                | FrameContent::ExchangeIdentification(_)
                | FrameContent::Test(_)
                | FrameContent::UnknownContent
        )
    }

    // How many octets stand before the info.
    pub fn front_len(self, mode: Mode) -> usize
        ensures { result ≡ length (front mode self) }
    {
        match self {
            FrameContent::Information(_) => mode.controls() + 1,
            FrameContent::ReceiveReady(_)
            | FrameContent::ReceiveNotReady(_)
            | FrameContent::Reject(_)
            | FrameContent::SelectiveReject(_) => mode.controls(),
            FrameContent::SetAsynchronousBalancedMode(_)
            | FrameContent::SetAsynchronousBalancedModeExtended(_)
            | FrameContent::Disconnect(_)
            | FrameContent::DisconnectedMode(_)
            | FrameContent::UnnumberedAcknowledge(_) => 1,
            FrameContent::FrameReject(_) => 4,
            FrameContent::UnnumberedInformation(_) => 2,
            FrameContent::ExchangeIdentification(_) => 1,
            FrameContent::Test(_) => 1,
            FrameContent::UnknownContent => 0,
        }
    }

    // The octets before the info, zeros after them.
    pub fn front(self, mode: Mode) -> [u8; 4]
        ensures { result ≡ four (front mode self) }
    {
        match self {
            FrameContent::Information(i) => {
                let octet = i.pid.to_byte();
                control::i_front(mode, i.receive_sequence, i.poll, i.send_sequence, octet)
            }
            FrameContent::ReceiveReady(rr) => {
                control::s_front(mode, rr.receive_sequence, rr.poll_or_final, 0b0000_0001)
            }
            FrameContent::ReceiveNotReady(rnr) => {
                control::s_front(mode, rnr.receive_sequence, rnr.poll_or_final, 0b0000_0101)
            }
            FrameContent::Reject(rej) => {
                control::s_front(mode, rej.receive_sequence, rej.poll_or_final, 0b0000_1001)
            }
            FrameContent::SelectiveReject(srej) => {
                control::s_front(mode, srej.receive_sequence, srej.poll_or_final, 0b0000_1101)
            }
            FrameContent::SetAsynchronousBalancedMode(sabm) => {
                [control::unnumbered(0b0010_1111, sabm.poll), 0, 0, 0]
            }
            FrameContent::SetAsynchronousBalancedModeExtended(sabme) => {
                [control::unnumbered(0b0110_1111, sabme.poll), 0, 0, 0]
            }
            FrameContent::Disconnect(disc) => [
                control::unnumbered(0b0100_0011, disc.poll),
                0,
                0,
                0,
            ],
            FrameContent::DisconnectedMode(dm) => [
                control::unnumbered(0b0000_1111, dm.final_bit),
                0,
                0,
                0,
            ],
            FrameContent::UnnumberedAcknowledge(ua) => {
                [control::unnumbered(0b0110_0011, ua.final_bit), 0, 0, 0]
            }
            FrameContent::FrameReject(fr) => fr.front(),
            FrameContent::UnnumberedInformation(ui) => {
                [
                    control::unnumbered(0b0000_0011, ui.poll_or_final),
                    ui.pid.to_byte(),
                    0,
                    0,
                ]
            }
            FrameContent::ExchangeIdentification(xid) => {
                [control::unnumbered(0b1010_1111, xid.poll_or_final), 0, 0, 0]
            }
            FrameContent::Test(test) => [
                control::unnumbered(0b1110_0011, test.poll_or_final),
                0,
                0,
                0,
            ],
            FrameContent::UnknownContent => [0, 0, 0, 0],
        }
    }

    fn is_frame_reject(self) -> bool
        ensures { result ≡ is_frame_reject self }
    {
        matches!(self, FrameContent::FrameReject(_))
    }

    // FRMR in the long mode, which has none.
    pub fn long_frmr(self, mode: Mode) -> bool
        ensures { result ≡ long_frmr mode self }
    {
        matches!(mode, Mode::Long) && self.is_frame_reject()
    }

    // Info, of this length, for a kind that has none.
    pub fn stray_info(self, carried: usize) -> bool
        ensures { result ≡ stray_info self carried }
    {
        !self.has_info() && carried != 0
    }

    // A layer 3 identifier with an octet outside the class: only I and UI have one.
    pub fn stray_pid(self) -> bool
        ensures { result ≡ stray_pid self }
    {
        match self {
            FrameContent::Information(i) => i.pid.outside_class(),
            FrameContent::UnnumberedInformation(ui) => ui.pid.outside_class(),
            _ => false,
        }
    }
}
