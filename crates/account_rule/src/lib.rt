// No code: the rule of demand 3 over lists of policing steps on one account, and the bench table. See specs/Rule.antt.
#![tactic(auto)]
