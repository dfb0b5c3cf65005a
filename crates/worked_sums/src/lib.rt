// The worked numbers of document 01 against the definitions: a table in specs/, and one claim over it in proofs/. There is no code.
#![tactic(auto)]
