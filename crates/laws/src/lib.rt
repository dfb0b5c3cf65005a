// Laws on lists that every crate above cites. Definitions stand in specs/, laws in proofs/; there is no code.
#![tactic(auto)]
