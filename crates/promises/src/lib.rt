// Theory only: what is promised, in the words of the demands, over the contracts of the functions.
#![tactic(auto)]
