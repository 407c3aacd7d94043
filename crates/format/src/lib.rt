// The link-state strip, as mathematics: no code stands here. `specs/` has the definitions that every contract of the
// other crates cites, taken from the RFCs and from the strip's description; `proofs/` the theorems about them.
#![tactic(auto)]
