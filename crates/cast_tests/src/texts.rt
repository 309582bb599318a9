use cast_print::print_script;
use cast_script::{Script, parse};
use cast_types::Refusal;
use std::alloc::{AllocError, Global};
use std::test::Fail;

// A script that has each event, spelled as scripts are printed.
const SCRIPT: &str = "site 2
domain 1 home 1 sites 1,2 groups 4,65535 quotas 16 256 256 200
domain 255 home 2 sites 2 groups 1 quotas 1 2 3 10
open 1
join 1 2 3 4
leave 1 2 3 4
pass 1 2 3 4 5.6
cast 1 2 3 4 -
abcast 1 2 3 4 00ff
bad 1 2
gone 1 2
suspect 1 2
quota 1 sessions 3
quota 1 held 3
quota 1 outbox 3
quota 1 resend 3
take 1 2 3
frame 4344010c010002000400000005
tick 18446744073709551615
";

// Whether the script of this text is printed so.
fn is_printed(alloc: Global, text: &str) -> Result<bool, AllocError> {
    let Ok(Script { config, events }) = parse(alloc, text) else {
        return Ok(false);
    };
    let printed = print_script(alloc, &config, events.as_slice())?;
    Ok(printed.as_str() == text)
}

#[test]
fn a_script_is_printed_as_it_was_read(rt: HostRuntime) -> Result<(), Fail> {
    let well = is_printed(rt.alloc(), SCRIPT)?;
    assert!(rt; well);
    Ok(())
}

#[test]
fn refusals_have_their_numbers(rt: HostRuntime) {
    assert!(rt;
        Refusal::BadFrame.number() == 1
            && Refusal::Halted.number() == 13
            && Refusal::from_number(9) == Some(Refusal::HeldFull)
            && Refusal::from_number(0) == None
            && Refusal::from_number(16) == None
    );
}
