// The form of the register strings, said by rules: specs/Grammar.antt. That `command::parse` is true to it: specs/Understood.antt.
#![tactic(auto)]
