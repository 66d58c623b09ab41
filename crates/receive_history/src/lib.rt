// No code: what the receiving end answers over lists of frames. See specs/Claims.antt.
#![tactic(auto)]
