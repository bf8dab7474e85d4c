// Paths of a skeleton and its centre: definitions and theorems, in specs/. No code stands here.
#![tactic(auto)]
