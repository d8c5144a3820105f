// No code: what document 02, M-112, asks of following a link as statements (specs/), proved (proofs/).
#![tactic(auto)]
