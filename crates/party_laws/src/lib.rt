// Laws of a party: its levels and components, and that the record stays valid.
#![tactic(auto)]
