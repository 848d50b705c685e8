// What the doors for C and Rust return and leave. specs/ has it, proofs/ the laws of it. There is no function here: the
// doors are `capi`'s.
#![tactic(auto)]
