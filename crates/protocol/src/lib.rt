// The protocol identifier (PID) of I and UI frames: from its octet, and back.
#![tactic(auto)]

ghost use Rattle.std.specs.Prelude.{◌≡◌};
ghost use Rattle.protocol.specs.Pid.{layer3, pid_of, octet_of, outside_class};

// Human-readable protocol identifiers, mostly from the AX.25 2.2 spec.
#[derive(Clone, Copy)]
pub enum ProtocolIdentifier {
    // The class has many octets: this is the one that was read, and writing returns it.
    Layer3Impl(u8),
    X25Plp,
    CompressedTcpIp,
    UncompressedTcpIp,
    SegmentationFragment,
    TexnetDatagram,
    LinkQuality,
    Appletalk,
    AppletalkArp,
    ArpaIp,
    ArpaAddress,
    Flexnet,
    NetRom,
    None,
    Escape,
    Unknown(u8),
}

// The layer 3 class is told by two bits alone, whatever the others are.
fn is_layer3(byte: u8) -> bool
    ensures { result ≡ layer3 byte }
{
    let class = byte & 0b0011_0000;
    class == 0b0001_0000 || class == 0b0010_0000
}

impl ProtocolIdentifier {
    // The Rust's names, from_byte and to_byte, and no `From`.
    pub fn from_byte(byte: u8) -> ProtocolIdentifier
        ensures { result ≡ pid_of byte }
    {
        if is_layer3(byte) {
            return ProtocolIdentifier::Layer3Impl(byte);
        }
        match byte {
            0x01 => ProtocolIdentifier::X25Plp,
            0x06 => ProtocolIdentifier::CompressedTcpIp,
            0x07 => ProtocolIdentifier::UncompressedTcpIp,
            0x08 => ProtocolIdentifier::SegmentationFragment,
            0xC3 => ProtocolIdentifier::TexnetDatagram,
            0xC4 => ProtocolIdentifier::LinkQuality,
            0xCA => ProtocolIdentifier::Appletalk,
            0xCB => ProtocolIdentifier::AppletalkArp,
            0xCC => ProtocolIdentifier::ArpaIp,
            0xCD => ProtocolIdentifier::ArpaAddress,
            0xCE => ProtocolIdentifier::Flexnet,
            0xCF => ProtocolIdentifier::NetRom,
            0xF0 => ProtocolIdentifier::None,
            0xFF => ProtocolIdentifier::Escape,
            pid => ProtocolIdentifier::Unknown(pid),
        }
    }

    pub fn to_byte(self) -> u8
        ensures { result ≡ octet_of self }
    {
        match self {
            ProtocolIdentifier::Layer3Impl(octet) => octet,
            ProtocolIdentifier::X25Plp => 0x01,
            ProtocolIdentifier::CompressedTcpIp => 0x06,
            ProtocolIdentifier::UncompressedTcpIp => 0x07,
            ProtocolIdentifier::SegmentationFragment => 0x08,
            ProtocolIdentifier::TexnetDatagram => 0xC3,
            ProtocolIdentifier::LinkQuality => 0xC4,
            ProtocolIdentifier::Appletalk => 0xCA,
            ProtocolIdentifier::AppletalkArp => 0xCB,
            ProtocolIdentifier::ArpaIp => 0xCC,
            ProtocolIdentifier::ArpaAddress => 0xCD,
            ProtocolIdentifier::Flexnet => 0xCE,
            ProtocolIdentifier::NetRom => 0xCF,
            ProtocolIdentifier::None => 0xF0,
            ProtocolIdentifier::Escape => 0xFF,
            ProtocolIdentifier::Unknown(pid) => pid,
        }
    }

    // A layer 3 identifier with an octet that is not of the class. Reading never gives one; a frame that has one is not written.
    pub fn outside_class(self) -> bool
        ensures { result ≡ outside_class self }
    {
        let ProtocolIdentifier::Layer3Impl(octet) = self else {
            return false;
        };
        !is_layer3(octet)
    }
}
