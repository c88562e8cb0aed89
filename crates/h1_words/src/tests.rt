use super::*;
use h1_error::{End, Error, ErrorType, HeadFault, Progress, Waiting};
use std::alloc::Global;
use std::test::Fail;

fn line_of_fault(alloc: Global, script: &str) -> Option<u64> {
    match parse_script(alloc, script.as_bytes()) {
        Ok(_) => None,
        Err(ScriptFault::Line(number)) => Some(number),
        Err(ScriptFault::NoMemory) => Some(0),
    }
}

#[test]
fn a_script_is_faulty_at_its_first_line_outside_of_the_grammar(rt: HostRuntime) {
    let cases = [
        ("", None),
        ("\n\nend", None),
        ("give a\nend\npoll 0\npoll 0\n", None),
        ("give \npoll 007", None),
        ("give", Some(1)),
        ("give a\\", Some(1)),
        ("give \\x4", Some(1)),
        ("give \\x4g", Some(1)),
        ("give \\t", Some(1)),
        ("give \u{e9}", Some(1)),
        ("\n\nGIVE a", Some(3)),
        ("end\ngive a", Some(2)),
        ("end\nend\n", Some(2)),
        ("end \n", Some(1)),
        ("poll 5\npoll 4", Some(2)),
        ("poll", Some(1)),
        ("poll ", Some(1)),
        ("poll +1", Some(1)),
        ("poll 00000000000000000001", None),
        ("poll 000000000000000000001", Some(1)),
        ("poll 253402300799999", None),
        ("poll 253402300800000", Some(1)),
        ("poll 99999999999999999999", Some(1)),
    ];
    for (script, expected) in cases {
        assert_eq!(rt; line_of_fault(rt.alloc(), script), expected, "{script}");
    }
}

#[test]
fn a_limit_and_a_shutdown_are_lines_of_the_grammar(rt: HostRuntime) {
    let cases = [
        ("shutdown\nlimit 0\nend\nshutdown\npoll 0\nshutdown", None),
        ("shutdown ", Some(1)),
        ("shutdow", Some(1)),
        ("limit 4294967295\npoll 0", None),
        ("limit 4294967296", Some(1)),
        ("limit 99999999999999999999", Some(1)),
        ("limit 00000000000000000007", None),
        ("limit 000000000000000000007", Some(1)),
        ("limit", Some(1)),
        ("limit ", Some(1)),
        ("limit -1", Some(1)),
        ("limit 1 ", Some(1)),
        ("limit 1\n\nlimit 1", Some(3)),
        ("poll 0\nlimit 1", Some(2)),
    ];
    for (script, expected) in cases {
        assert_eq!(rt; line_of_fault(rt.alloc(), script), expected, "{script}");
    }
}

#[test]
fn modules_are_lines_of_the_grammar(rt: HostRuntime) {
    let cases = [
        (
            "module mark 7\nmodule refuse 7\nmodule mark 8\nmodule refuse 8",
            None,
        ),
        (
            "end\nlimit 1\nmodule refuse 0\nshutdown\nmodule mark 0\npoll 0",
            None,
        ),
        ("module mark 4294967295\nmodule refuse 4294967295", None),
        ("module mark 4294967296", Some(1)),
        ("module refuse 4294967296", Some(1)),
        ("module mark 99999999999999999999", Some(1)),
        ("module mark 00000000000000000007", None),
        ("module mark 000000000000000000007", Some(1)),
        ("module refuse 00000000000000000007", None),
        ("module refuse 000000000000000000007", Some(1)),
        ("module mark", Some(1)),
        ("module refuse", Some(1)),
        ("module mark ", Some(1)),
        ("module refuse ", Some(1)),
        ("module mark x", Some(1)),
        ("module refuse x", Some(1)),
        ("module mark -1", Some(1)),
        ("module mark 1 ", Some(1)),
        ("module mark  1", Some(1)),
        ("module keep 1", Some(1)),
        ("module 1", Some(1)),
        ("module", Some(1)),
        ("mark 1", Some(1)),
    ];
    for (script, expected) in cases {
        assert_eq!(rt; line_of_fault(rt.alloc(), script), expected, "{script}");
    }
}

#[test]
fn a_module_stands_once_and_before_the_first_poll(rt: HostRuntime) {
    let cases = [
        ("module mark 7\nmodule mark 7", Some(2)),
        ("module refuse 7\nmodule refuse 7", Some(2)),
        ("module mark 7\nmodule mark 07", Some(2)),
        ("module refuse 07\n\nmodule refuse 7", Some(3)),
        (
            "module mark 7\nmodule refuse 7\nend\nmodule mark 7",
            Some(4),
        ),
        (
            "module refuse 7\nmodule mark 7\ngive a\nmodule refuse 7",
            Some(4),
        ),
        ("poll 0\nmodule mark 1", Some(2)),
        ("poll 0\nmodule refuse 1", Some(2)),
        ("module mark 1\npoll 0\nmodule mark 2", Some(3)),
    ];
    for (script, expected) in cases {
        assert_eq!(rt; line_of_fault(rt.alloc(), script), expected, "{script}");
    }
}

#[test]
fn rooms_blocks_and_faults_are_lines_of_the_grammar(rt: HostRuntime) {
    let cases = [
        (
            "room 0\nblock\nfault read\nfault write\nlimit 1\nend\nroom 5\nblock\nblock",
            None,
        ),
        ("end\nfault read\nfault write\nfault write\nroom 1", None),
        ("room 18446744073709551615\npoll 0\nroom 1\npoll 0", None),
        ("room 18446744073709551616", Some(1)),
        ("room 00000000000000000007", None),
        ("room 000000000000000000007", Some(1)),
        ("room", Some(1)),
        ("room ", Some(1)),
        ("room -1", Some(1)),
        ("room 1 ", Some(1)),
        ("block\nblock 1", Some(2)),
        ("block ", Some(1)),
        ("fault", Some(1)),
        ("fault ", Some(1)),
        ("fault  read", Some(1)),
        ("fault read ", Some(1)),
        ("fault flush", Some(1)),
    ];
    for (script, expected) in cases {
        assert_eq!(rt; line_of_fault(rt.alloc(), script), expected, "{script}");
    }
}

#[test]
fn a_script_that_is_too_long_is_faulty_at_the_line_of_the_byte_beyond(
    rt: HostRuntime,
) -> Result<(), Fail> {
    let script = vec![in rt.alloc(); b'\n'; MAX_SCRIPT + 1]?;
    let expected = Some(ScriptFault::Line(8_388_609));
    assert_eq!(rt; parse_script(rt.alloc(), &script).err(), expected);
    Ok(())
}

#[test]
fn a_script_gives_its_commands_in_order(rt: HostRuntime) -> Result<(), Fail> {
    let text = b"give GET /\\r\\n\\\\\\x00\\xfF~\npoll 7\n\nend";
    let script = parse_script(rt.alloc(), text).ok().ok_or("a script")?;
    match script.commands() {
        [Command::Give(bytes), Command::Poll(7), Command::End] => {
            assert_eq!(rt; bytes.as_slice(), b"GET /\r\n\\\x00\xff~".as_slice());
        }
        _ => assert!(rt; false, "three commands"),
    }
    Ok(())
}

#[test]
fn a_script_gives_its_limit_and_each_shutdown(rt: HostRuntime) -> Result<(), Fail> {
    let text = b"shutdown\nlimit 007\npoll 5\nshutdown";
    let script = parse_script(rt.alloc(), text).ok().ok_or("a script")?;
    let in_order = match script.commands() {
        [
            Command::Shutdown,
            Command::Limit(7),
            Command::Poll(5),
            Command::Shutdown,
        ] => true,
        _ => false,
    };
    assert!(rt; in_order);
    Ok(())
}

#[test]
fn a_script_gives_its_modules(rt: HostRuntime) -> Result<(), Fail> {
    let text = b"module refuse 4294967295\nmodule mark 007\nmodule refuse 7";
    let script = parse_script(rt.alloc(), text).ok().ok_or("a script")?;
    let in_order = match script.commands() {
        [
            Command::Refuse(4_294_967_295),
            Command::Mark(7),
            Command::Refuse(7),
        ] => true,
        _ => false,
    };
    assert!(rt; in_order);
    Ok(())
}

#[test]
fn a_script_gives_its_rooms_blocks_and_faults(rt: HostRuntime) -> Result<(), Fail> {
    let text = b"fault write\nroom 012\nblock\nfault read";
    let script = parse_script(rt.alloc(), text).ok().ok_or("a script")?;
    let in_order = match script.commands() {
        [
            Command::FaultWrite,
            Command::Room(12),
            Command::Block,
            Command::FaultRead,
        ] => true,
        _ => false,
    };
    assert!(rt; in_order);
    Ok(())
}

#[test]
fn bytes_are_reported_as_printable_text(rt: HostRuntime) -> Result<(), Fail> {
    let mut text = Text::new(rt.alloc());
    text.push_counted(rt.alloc(), b"")?;
    text.push(b"|")?;
    text.push_counted(rt.alloc(), b"a\r\n\\\x00\x7f\xff ~")?;
    let expected = b"0|9 a\\r\\n\\\\\\x00\\x7f\\xff ~";
    assert_eq!(rt; text.as_slice(), expected.as_slice());
    Ok(())
}

#[test]
fn an_answer_is_reported_by_its_words(rt: HostRuntime) -> Result<(), Fail> {
    let kind = ErrorType::InvalidHTTPHeader(HeadFault::NotAHead);
    let error = Error { kind, retry: false };
    let cases = [
        (Progress::Pending(Waiting::Read), "pending read"),
        (Progress::Pending(Waiting::Write), "pending write"),
        (Progress::Pending(Waiting::App), "pending application"),
        (Progress::Pending(Waiting::Budget), "pending budget"),
        (Progress::Ready(End::Finished), "finished"),
        (Progress::Ready(End::NotKept), "not kept"),
        (Progress::Ready(End::Overread), "overread"),
        (
            Progress::Ready(End::Failed(error)),
            "failed 1 InvalidHTTPHeader NotAHead",
        ),
    ];
    for (answer, expected) in cases {
        let mut text = Text::new(rt.alloc());
        text.push_answer(rt.alloc(), answer)?;
        assert_eq!(rt; text.as_slice(), expected.as_bytes());
    }
    Ok(())
}

/// The task of the words that spaces part.
fn task_of(alloc: Global, line: &str) -> Result<Option<Task>, Error> {
    let mut words = Vec::new(alloc);
    for word in line.split(' ') {
        words.push(String::from_str(alloc, word)?)?;
    }
    Ok(parse_words(&words))
}

#[test]
fn the_words_script_and_gen_with_a_number_are_tasks(rt: HostRuntime) -> Result<(), Fail> {
    let cases = [
        ("script", Some(Task::Script)),
        ("gen 0", Some(Task::Gen(0))),
        ("gen 20000", Some(Task::Gen(20_000))),
        ("gen 00000000000000000007", Some(Task::Gen(7))),
        ("gen 000000000000000000007", None),
        ("gen 20001", None),
        ("gen 99999999999999999999", None),
        ("gen x", None),
        ("gen -1", None),
        ("gen +1", None),
        ("gen ", None),
        ("gen", None),
        ("gen 1 2", None),
        ("script 1", None),
        ("script gen 1", None),
        ("generate 1", None),
        ("", None),
    ];
    for (line, expected) in cases {
        assert_eq!(rt; task_of(rt.alloc(), line)?, expected, "{line}");
    }
    assert_eq!(rt; parse_words(&[]), None);
    Ok(())
}

#[test]
fn the_word_listen_with_a_port_and_a_count_is_a_task(rt: HostRuntime) -> Result<(), Fail> {
    let cases = [
        ("listen 0 0", Some((0, 0))),
        ("listen 65535 1000", Some((65_535, 1_000))),
        (
            "listen 00000000000000000080 00000000000000000002",
            Some((80, 2)),
        ),
        ("listen 000000000000000000080 2", None),
        ("listen 80 000000000000000000002", None),
        ("listen 65536 1", None),
        ("listen 1 1001", None),
        ("listen 99999999999999999999 1", None),
        ("listen 1 99999999999999999999", None),
        ("listen x 1", None),
        ("listen 1 x", None),
        ("listen +1 1", None),
        ("listen  1", None),
        ("listen 1 ", None),
        ("listen 1", None),
        ("listen", None),
        ("listen 1 1 1", None),
        ("Listen 1 1", None),
        ("gen 1 1", None),
    ];
    for (line, expected) in cases {
        let task = expected.map(|(port, count)| Task::Listen { port, count });
        assert_eq!(rt; task_of(rt.alloc(), line)?, task, "{line}");
    }
    Ok(())
}
