// No code: what every layer says of octets and lists of them (specs/), and the laws of it (proofs/).
#![tactic(auto)]
