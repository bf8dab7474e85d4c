// Vertices that a renumbering of the skeleton onto itself carries to one another: theorems, in specs/. No code stands here.
#![tactic(auto)]
