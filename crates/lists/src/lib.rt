// Laws about lists, tests, words and bytes that know nothing of zones. There is no code: specs/ has the definitions, proofs/ the laws.
#![tactic(auto)]
