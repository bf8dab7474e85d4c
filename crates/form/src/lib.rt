// The N-tuple code, the centre, the centred code and the verdict.
#![tactic(auto)]
