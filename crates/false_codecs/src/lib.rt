// Five false codecs, and that none of them meets demand 2. There is no code.
#![tactic(auto)]
