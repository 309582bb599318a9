//! Worked scripts: what the definitions print for them.
//!
//! Each script and the text that it must print were worked out by hand from the rules, apart from
//! code and definitions. Here the definitions compute that text. So a wrong definition is
//! noticed, even where the code agrees with it. `cast_trials` runs the same scripts through the
//! program.
#![tactic(auto)]
