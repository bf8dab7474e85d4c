// Laws of lists and of the dictionary: facts of no one format, in specs/. No code stands here.
#![tactic(auto)]
