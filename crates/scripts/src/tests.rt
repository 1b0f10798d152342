// That scripts are read and answered.
use crate::{Every, Plain, read_script, replay};
use std::test::Fail;

#[test]
fn all_calls_are_taken(rt: HostRuntime) -> Result<(), Fail> {
    let text = "open 2 2 8 2 8 1\ninput\nwalk source 2 00000000000000FF\nlist\ncone 3 9 9\n";
    let script = read_script(rt.alloc(), text, &Every)?;
    assert_eq!(rt; script.calls.len(), 5);
    assert_eq!(rt; script.other, None);
    let mut answers = String::from_str(rt.alloc(), "before\n")?;
    replay(rt.alloc(), script.calls.as_slice(), &mut answers)?;
    let want =
        "before\ncapacity=2\ninput=1\nwalk=0000000000000000 00000000000000FF\nnet=1\nin=1\nend=1\nmade=0\nfolded=0\nshared=0\nmerged=0\nmap=2\ndone=1\ncone=0\n";
    assert_eq!(rt; answers.as_str(), want);
    Ok(())
}

#[test]
fn another_call_ends_the_script(rt: HostRuntime) -> Result<(), Fail> {
    let text = "open 2 2 8 2 8 1\ninput\nlist\ninput\n";
    let script = read_script(rt.alloc(), text, &Plain)?;
    assert_eq!(rt; script.calls.len(), 2);
    assert_eq!(rt; script.other, Some(3));
    let nothing = read_script(rt.alloc(), "input\n", &Every)?;
    assert_eq!(rt; nothing.other, Some(1));
    Ok(())
}
