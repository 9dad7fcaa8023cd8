// Computed cases: what the desk says to a list of calls, in specs/.
#![tactic(auto)]
