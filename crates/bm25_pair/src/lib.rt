// No code: a full block's pair of codes, and why the bound that it stands for lies below no score of the block.
#![tactic(auto)]
