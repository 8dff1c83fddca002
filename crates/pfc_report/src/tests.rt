use super::*;
use std::alloc::Global;
use std::test::Fail;

/// The first bad line of a text, where it is refused with two writers.
fn bad_line(alloc: Global, text: &str) -> Option<u64> {
    match read_schedule(alloc, text.as_bytes(), 2) {
        Err(ScheduleRefusal::Bad { line }) => Some(line),
        _ => None,
    }
}

fn asks(step: &Step<'_>, number: u32, line: &[u8]) -> bool {
    match step {
        Step::Ask { client, rest } => *client == number && *rest == line,
        _ => false,
    }
}

fn goes(step: &Step<'_>, number: u32, count: u32) -> bool {
    match step {
        Step::Go { client, times } => *client == number && *times == count,
        _ => false,
    }
}

fn writes(step: &Step<'_>, number: u32, count: u32) -> bool {
    match step {
        Step::Write { writer, times } => *writer == number && *times == count,
        _ => false,
    }
}

fn syncs(step: &Step<'_>, place: &[u8], count: u32) -> bool {
    match step {
        Step::Sync { path, times } => *path == place && *times == count,
        _ => false,
    }
}

#[test]
fn a_schedule_of_each_form_is_read(rt: HostRuntime) -> Result<(), Fail> {
    let text = "# a remark\n\nask 1 open 0 /a\ngo 64\nask 64 \ngo 2 10000\nask 3  two  spaces ";
    let plan = match read_schedule(rt.alloc(), text.as_bytes(), 0) {
        Ok(plan) => plan,
        Err(_) => return Err(Fail::from("refused")),
    };
    let steps = plan.steps();
    assert_eq!(rt; steps.len(), 5);
    if let [first, second, third, fourth, fifth] = steps {
        assert!(rt; asks(first, 1, b"open 0 /a"));
        assert!(rt; goes(second, 64, 1));
        assert!(rt; asks(third, 64, b""));
        assert!(rt; goes(fourth, 2, 10000));
        assert!(rt; asks(fifth, 3, b" two  spaces "));
    }
    Ok(())
}

#[test]
fn writers_write_once_or_so_often(rt: HostRuntime) -> Result<(), Fail> {
    let text = "write 1\nwrite 2 10000\ngo 3";
    let plan = match read_schedule(rt.alloc(), text.as_bytes(), 2) {
        Ok(plan) => plan,
        Err(_) => return Err(Fail::from("refused")),
    };
    let steps = plan.steps();
    assert_eq!(rt; steps.len(), 3);
    if let [first, second, third] = steps {
        assert!(rt; writes(first, 1, 1));
        assert!(rt; writes(second, 2, 10000));
        assert!(rt; goes(third, 3, 1));
    }
    Ok(())
}

#[test]
fn a_path_is_synced_once_or_so_often(rt: HostRuntime) -> Result<(), Fail> {
    let text = "sync /a\nsync /a 10000\nsync /data/run.7 2";
    let plan = match read_schedule(rt.alloc(), text.as_bytes(), 0) {
        Ok(plan) => plan,
        Err(_) => return Err(Fail::from("refused")),
    };
    let steps = plan.steps();
    assert_eq!(rt; steps.len(), 3);
    if let [first, second, third] = steps {
        assert!(rt; syncs(first, b"/a", 1));
        assert!(rt; syncs(second, b"/a", 10000));
        assert!(rt; syncs(third, b"/data/run.7", 2));
    }
    Ok(())
}

#[test]
fn the_first_line_without_a_form_is_named(rt: HostRuntime) {
    let table = [
        ("go 65", 1),
        ("go 0", 1),
        ("go 1 0", 1),
        ("go 1 10001", 1),
        ("go 1 1 ", 1),
        ("go 1 ", 1),
        ("go  1", 1),
        ("go", 1),
        ("ask 1", 1),
        ("ask 01 open 0 /a", 1),
        ("ask 0 open 0 /a", 1),
        ("Ask 1 open 0 /a", 1),
        (" go 1", 1),
        ("go 1\r", 1),
        ("write 0", 1),
        ("write 3", 1),
        ("write 1 0", 1),
        ("write 1 10001", 1),
        ("write 1 1 ", 1),
        ("write", 1),
        ("sync a", 1),
        ("sync /a 0", 1),
        ("sync /a 10001", 1),
        ("sync /a 3 4", 1),
        ("sync /a ", 1),
        ("sync", 1),
        ("sync ", 1),
        ("write 2\nwrite 3 1", 2),
        ("sync /a\nsync /a 3\nsync a", 3),
        ("#\n\ngo 1\ngo x\ngo y\n", 4),
    ];
    for (text, line) in table {
        assert_eq!(rt; bad_line(rt.alloc(), text), Some(line), "{text}");
    }
}
