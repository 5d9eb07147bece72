// Definitions and laws only: specs/ says what the rules paper says, proofs/ has its laws.
#![tactic(auto)]
