// No code: what document 02, M-103, asks of KISS packets as statements (specs/), proved (proofs/).
#![tactic(auto)]
