// No code: the laws of the frame's grammar and its reader.
#![tactic(auto)]
