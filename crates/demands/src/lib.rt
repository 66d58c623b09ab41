// No code: the three demands as statements in specs/, proved over the definitions that the other crates' contracts cite.
#![tactic(auto)]
