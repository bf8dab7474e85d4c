// Numbering by code: which vertex each digit of a rooted code stands for. Definitions and laws alone, in specs/.
#![tactic(auto)]
