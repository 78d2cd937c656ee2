// Rising lists of keyed points: definitions in specs/, their laws in proofs/. No code.
#![tactic(auto)]
