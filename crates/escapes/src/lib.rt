// The escapes of values in XML text.
#![tactic(auto)]
