// Executions of a state machine by several boards, and erasing power cuts from them. Definitions and laws, no code.
#![tactic(auto)]
