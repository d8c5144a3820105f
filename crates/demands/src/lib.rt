// No code: the customer's demands as statements (specs/), proved (proofs/).
#![tactic(auto)]
