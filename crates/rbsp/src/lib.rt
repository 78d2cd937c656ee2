// The messages of an SEI unit: definitions in specs/, their laws in proofs/. No code.
#![tactic(auto)]
