use crate::{Command, Task, command_of};
use std::test::Fail;

#[test]
fn words_are_read(rt: HostRuntime) -> Result<(), Fail> {
    let step = Command::OnScript(Task::Run { seed: 7 });
    let last = Command::OnScript(Task::Run { seed: u64::MAX });
    let cases: [(&[&str], Option<Command>); 14] = [
        (&["check"], Some(Command::OnScript(Task::Check))),
        (&["step", "007"], Some(step)),
        (&["step", "18446744073709551615"], Some(last)),
        (&["bulk", "1"], Some(Command::Bulk { n: 1 })),
        (
            &["bulk", "00000000000000000016"],
            Some(Command::Bulk { n: 16 }),
        ),
        (&["bulk", "000000000000000000016"], None),
        (&["bulk", "17"], None),
        (&["bulk", "0"], None),
        (&["step", "18446744073709551616"], None),
        (&["step", "-1"], None),
        (&["step", ""], None),
        (&["help"], None),
        (&["--help"], None),
        (&[], None),
    ];
    for (words, command) in cases {
        let mut line = Vec::new(rt.alloc());
        for word in words {
            line.push(String::from_str(rt.alloc(), word)?)?;
        }
        assert_eq!(rt; command_of(rt.alloc(), &line)?, command);
    }
    Ok(())
}
