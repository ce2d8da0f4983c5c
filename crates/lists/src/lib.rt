// Definitions and laws about ranges of numbers and about lists that know nothing of timing, each said once, over any
// element type. There is no code here: specs/ has the definitions, proofs/ the laws. The crate assumes nothing.
#![tactic(auto)]
