// What every format shares: bits, codes, and syntax tables as trees with what reading them means. Definitions in specs/, their laws in proofs/. No code.
#![tactic(auto)]
