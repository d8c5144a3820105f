// No code: what document 02, M-104, asks of a serial line as statements (specs/), proved (proofs/).
#![tactic(auto)]
