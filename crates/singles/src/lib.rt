// Theory: the single-precision numbers that codes become, each exactly its code divided by 4,096.
#![tactic(auto)]
