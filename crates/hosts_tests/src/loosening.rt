//! Switches: in the file, and loosened by a call, at each of three hosts.

use super::outer_host::OuterHost;
use super::samples::{Answer, check_answers, check_switches, memory, told};
use hosts::{MayHaveSideEffectsContext, NameHost, Switches, TableHost, loosen};
use packed::{Refusal, Switch};
use std::process::Abort;
use std::test::Fail;

/// A call of `loosen`: the number, then 0 twice or the refusal's number and place, and which switches are counted then.
type Step = (u8, (u8, usize), (bool, bool, bool));

/// The switches from first to last, each twice, and numbers that are no switch's.
const FORWARD: [Step; 15] = [
    (0, (11, 0), (true, true, true)),
    (4, (11, 0), (true, true, true)),
    (255, (11, 0), (true, true, true)),
    (1, (0, 0), (false, true, true)),
    (1, (0, 0), (false, true, true)),
    (0, (11, 0), (false, true, true)),
    (2, (0, 0), (false, false, true)),
    (2, (0, 0), (false, false, true)),
    (4, (11, 0), (false, false, true)),
    (3, (0, 0), (false, false, false)),
    (3, (0, 0), (false, false, false)),
    (255, (11, 0), (false, false, false)),
    (1, (0, 0), (false, false, false)),
    (2, (0, 0), (false, false, false)),
    (3, (0, 0), (false, false, false)),
];

/// The switches from last to first.
const BACKWARD: [Step; 6] = [
    (3, (0, 0), (true, true, false)),
    (3, (0, 0), (true, true, false)),
    (2, (0, 0), (true, false, false)),
    (0, (11, 0), (true, false, false)),
    (2, (0, 0), (true, false, false)),
    (1, (0, 0), (false, false, false)),
];

/// The second switch alone.
const SECOND: [Step; 2] = [
    (2, (0, 0), (true, false, true)),
    (9, (11, 0), (true, false, true)),
];

/// 0 twice, or the refusal's number and place.
fn answer_of(loosened: Result<(), Refusal>) -> (u8, usize) {
    match loosened {
        Ok(()) => (0, 0),
        Err(refusal) => told(refusal),
    }
}

/// Takes the steps at a host that counts all switches, and checks that no answer about names and references changes.
fn check_steps<C: MayHaveSideEffectsContext>(
    rt: &impl Abort,
    host: &mut C,
    answers: &[Answer<'_>],
    steps: &[Step],
) -> Result<(), Fail> {
    check_switches(rt, host, (true, true, true), 0);
    check_answers(rt, host, answers);
    for (number, answer, switches) in steps {
        assert_eq!(rt; answer_of(loosen(host, *number)), *answer, "by {number}");
        check_switches(rt, host, *switches, *number);
        check_answers(rt, host, answers);
    }
    Ok(())
}

#[test]
fn at_a_table_host(rt: HostRuntime) -> Result<(), Fail> {
    let file =
        b"\x02\x00\x04\x00\x02\x00\x05\x02\x00\x04\x00\x03\x01\x04\x02\x00\x04\x00\x09\x00\x08";
    let answers: [Answer<'_>; 6] = [
        (b"x", 0, (true, 0)),
        (b"x", 1, (true, 0)),
        (b"x", 2, (false, 5)),
        (b"", 3, (true, 4)),
        (b"x", 9, (false, 8)),
        (b"x", 65_535, (true, 0)),
    ];
    let all: [&[Step]; 3] = [&FORWARD, &BACKWARD, &SECOND];
    for steps in all {
        let (mut host, _) = TableHost::make(file, memory(rt.alloc(), 3)?)?;
        check_steps(&rt, &mut host, &answers, steps)?;
        assert_eq!(rt; host.records(), 3);
    }
    Ok(())
}

#[test]
fn at_a_name_host(rt: HostRuntime) -> Result<(), Fail> {
    let answers: [Answer<'_>; 5] = [
        (b"ab", 0, (false, 0)),
        (b"ab", 2, (false, 0)),
        (b"c", 65_535, (false, 0)),
        (b"a", 0, (true, 0)),
        (b"", 1, (true, 0)),
    ];
    let all: [&[Step]; 3] = [&FORWARD, &BACKWARD, &SECOND];
    for steps in all {
        let (mut host, _) = NameHost::make(b"\x04\x00\x02ab\x04\x00\x01c")?;
        check_steps(&rt, &mut host, &answers, steps)?;
        assert_eq!(rt; host.names(), 2);
    }
    Ok(())
}

#[test]
fn at_a_host_of_ones_own(rt: HostRuntime) -> Result<(), Fail> {
    let answers: [Answer<'_>; 4] = [
        (b"x", 0, (true, 0)),
        (b"", 1, (true, 0)),
        (b"Object", 2, (true, 0)),
        (b"x", 65_535, (true, 0)),
    ];
    let all: [&[Step]; 3] = [&FORWARD, &BACKWARD, &SECOND];
    for steps in all {
        check_steps(&rt, &mut OuterHost::new(), &answers, steps)?;
    }
    Ok(())
}

#[test]
fn by_every_other_number(rt: HostRuntime) -> Result<(), Fail> {
    let (mut host, _) = NameHost::make(b"\x04\x00\x01a\x03\x00\x01\x02")?;
    let mut outer = OuterHost::new();
    for number in 0..=u8::MAX {
        if matches!(number, 1..=3) {
            continue;
        }
        assert_eq!(rt; answer_of(loosen(&mut host, number)), (11, 0));
        assert_eq!(rt; answer_of(loosen(&mut outer, number)), (11, 0));
        check_switches(&rt, &host, (true, false, true), 0);
        check_switches(&rt, &outer, (true, true, true), 0);
        check_answers(&rt, &host, &[(b"a", 0, (false, 0)), (b"b", 0, (true, 0))]);
    }
    Ok(())
}

#[test]
fn switches_in_words(rt: HostRuntime) -> Result<(), Fail> {
    let heap = rt.alloc();
    let all = Switches::new();
    let reads = all.without(Switch::PropertyReads);
    let writes = all.without(Switch::PropertyWrites);
    let globals = all.without(Switch::UnknownGlobals);
    let cases = [
        (all, "reads true writes true globals true"),
        (reads, "reads false writes true globals true"),
        (writes, "reads true writes false globals true"),
        (globals, "reads true writes true globals false"),
    ];
    for (switches, words) in cases {
        assert_eq!(rt; switches.to_string(heap)?.as_str(), words);
    }
    Ok(())
}
