// A frame as a flat record of octets, and back: what the calls of `probe` take and give. specs/Laid.antt has the layout.
#![tactic(auto)]

pub mod laid; // laid.rt: from a frame to its flat record
pub mod given; // given.rt: from a flat record to its frame
