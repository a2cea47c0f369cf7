//! Logs that are made turn by turn, and looked up.

use crate::comparing::same;
use std::test::Fail;
use turn_log::TurnLog;

/// Two harts and the turns 0 0 0 0 0 1 1 1 1 1 0.
const EXAMPLE: [u8; 43] = [
    0x48, 0x52, 0x4c, 0x31, 2, 0, 0, 0, 3, 0, 0, 0, 0, 0, 0, 0, //
    0, 5, 0, 0, 0, 0, 0, 0, 0, 1, 5, 0, 0, 0, 0, 0, 0, 0, 0, 1, 0, 0, 0, 0, 0, 0, 0,
];

/// Turns of a hart after its own lengthen the last run.
#[test]
fn runs_pushed(rt: HostRuntime) -> Result<(), Fail> {
    let mut log = TurnLog::new(rt.alloc(), 2);
    assert!(rt; log.is_empty());
    for (hart, k) in [(0, 2), (0, 3), (1, 4)] {
        assert!(rt; hart < log.harts());
        assert!(rt; 0 < k && k < 10);
        assert!(rt; log.count_of(hart) < 10);
        log.push_run(hart, k)?;
    }
    for hart in [1, 0] {
        assert!(rt; hart < log.harts());
        assert!(rt; log.count_of(hart) < 10);
        log.push(hart)?;
    }
    same(&rt, &log.len(), &11);
    same(&rt, &log.count_of(1), &5);
    let mut out = Vec::new(rt.alloc());
    log.write(&mut out)?;
    same(&rt, &out.as_slice(), &EXAMPLE.as_slice());
    Ok(())
}

#[test]
fn looked_up(rt: HostRuntime) -> Result<(), Fail> {
    let log = TurnLog::read(rt.alloc(), &EXAMPLE)?;
    same(&rt, &log.turn_at(4), &Some(0));
    same(&rt, &log.turn_at(5), &Some(1));
    same(&rt, &log.turn_at(11), &None);
    same(&rt, &log.run_at(1), &Some((0, 4)));
    same(&rt, &log.run_at(10), &Some((0, 1)));
    Ok(())
}

/// As many turns as a hart can have, read, looked up and written as soon as one.
#[test]
fn longest_run(rt: HostRuntime) -> Result<(), Fail> {
    let most = 1 << 40;
    let bytes = [
        0x48, 0x52, 0x4c, 0x31, 1, 0, 0, 0, 1, 0, 0, 0, 0, 0, 0, 0, 0, 0, 0, 0, 0, 0, 1, 0, 0,
    ];
    let log = TurnLog::read(rt.alloc(), &bytes)?;
    same(&rt, &log.len(), &most);
    same(&rt, &log.count_of(0), &most);
    same(&rt, &log.turn_at(0), &Some(0));
    same(&rt, &log.turn_at(most - 1), &Some(0));
    same(&rt, &log.turn_at(most), &None);
    same(&rt, &log.run_at(most / 2), &Some((0, most / 2)));
    let mut out = Vec::new(rt.alloc());
    log.write(&mut out)?;
    same(&rt, &out.as_slice(), &bytes.as_slice());
    Ok(())
}
