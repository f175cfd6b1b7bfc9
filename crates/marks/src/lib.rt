// Sets of marks: definitions that stores and runs share; the code stands in the crates above.
#![tactic(auto)]
