// The three demands, as statements over the definitions that the calls' promises cite, with their proofs. There is no code here.
#![tactic(auto)]
