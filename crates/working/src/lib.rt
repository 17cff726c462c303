// The working buffers of normalization, and what a write leaves in them.
#![tactic(auto)]
