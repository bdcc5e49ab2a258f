// What is proved of blocks, images and the C surface, over their definitions: no code.
#![tactic(auto)]
