// How values stand as bytes. There is no code: specs/ has the definitions, proofs/ the laws.
#![tactic(auto)]
