// What is promised of a take as a whole: see specs/.
#![tactic(auto)]
