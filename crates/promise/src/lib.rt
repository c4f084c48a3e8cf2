// What every public call promises: specs/Meets.antt. There is no code.
#![tactic(auto)]
