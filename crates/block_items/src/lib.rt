// What a property block holds, as values and as bytes: definitions in specs/. There is no code.
#![tactic(auto)]
