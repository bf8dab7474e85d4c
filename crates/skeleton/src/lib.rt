// Skeletons and their rooted codes: definitions and theorems, in specs/. No code stands here.
#![tactic(auto)]
