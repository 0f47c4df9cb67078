// No code: what the proofs of every floor share. proofs/Unique says what it is for a promise to leave one result, specs/Over what a store of several elements leaves.
#![tactic(auto)]
