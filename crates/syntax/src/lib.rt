// Theory only: the syntax of ST2094-10_data, and what reading it means.
#![tactic(auto)]
