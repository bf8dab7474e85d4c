// A text of lines, of any line format: what its lines are answered and what damage can do, in specs/. No code stands here.
#![tactic(auto)]
