//! A talk about two harts that each add 1 to a word, answer by answer. The answers were worked out by hand.

use debugger::Session;
use gdb_session::{Ending, GdbSession, ending_of};
use loader::read_image;
use std::alloc::Global;
use std::process::Abort;
use std::test::Fail;
use turn_log::TurnLog;

/// Each hart adds 1 to the one word of data, and then finishes.
const COUNTER: [u8; 52] = [
    0x48, 0x52, 0x56, 0x31, 0x00, 0x00, 0x01, 0x00, 0x04, 0x00, 0x00, 0x00, 0x04, 0x00, 0x00, 0x00,
    0x00, 0x00, 0x20, 0x00, 0x01, 0x00, 0x00, 0x00, 0x01, 0x00, 0x00, 0x00, 0x04, 0x00, 0x00, 0x00,
    0xb7, 0x02, 0x20, 0x00, 0x13, 0x03, 0x10, 0x00, 0xaf, 0xa3, 0x62, 0x00, 0x73, 0x00, 0x00, 0x00,
    0x00, 0x00, 0x00, 0x00,
];

/// Two harts, and the turns 0, 1, 1, 0, 0, 1, 1, 0.
const TURNS: [u8; 61] = [
    0x48, 0x52, 0x4c, 0x31, 2, 0, 0, 0, 5, 0, 0, 0, 0, 0, 0, 0, //
    0, 1, 0, 0, 0, 0, 0, 0, 0, //
    1, 2, 0, 0, 0, 0, 0, 0, 0, //
    0, 2, 0, 0, 0, 0, 0, 0, 0, //
    1, 2, 0, 0, 0, 0, 0, 0, 0, //
    0, 1, 0, 0, 0, 0, 0, 0, 0,
];

fn begun(alloc: Global) -> Result<GdbSession, Fail> {
    let image = read_image(alloc, &COUNTER)?;
    let log = TurnLog::read(alloc, &TURNS)?;
    Ok(GdbSession::new(Session::open(alloc, image, log)?))
}

/// Asks, and compares the answers.
fn talk<R: Abort + AllocGlobal>(
    rt: &R,
    session: &mut GdbSession,
    lines: &[(&str, &str)],
) -> Result<(), Fail> {
    for (asked, wanted) in lines {
        let mut out = Vec::new(rt.alloc());
        session.answer(rt.alloc(), asked.as_bytes(), &mut out)?;
        assert_eq!(rt; out.as_slice(), wanted.as_bytes());
    }
    Ok(())
}

#[test]
fn what_is_there_is_told(rt: HostRuntime) -> Result<(), Fail> {
    let mut session = begun(rt.alloc())?;
    talk(
        &rt,
        &mut session,
        &[
            ("?", "T05thread:1;"),
            ("qC", "QC1"),
            ("qfThreadInfo", "m1,2"),
            ("qsThreadInfo", "l"),
            ("m10000,8", "b702200013031000"),
            ("m10002,4", "20001303"),
            ("m200002,4", "0000"),
            ("m1fffff,4", "E01"),
            ("m10010,4", "E01"),
            ("T2", "OK"),
            ("T3", "E01"),
            ("Hg3", "E01"),
            ("vCont;s:3", "E01"),
            ("p43", "E01"),
            ("Z1,10010,4", "E01"),
            ("Z2,200001,1", "E01"),
            ("Z3,200000,4", ""),
            ("M200000,1:ff", "E01"),
            ("qCRC:10000,40", ""),
            ("qThreadExtraInfo,1", "72756e6e696e67"),
        ],
    )
}

#[test]
fn forwards_and_backwards(rt: HostRuntime) -> Result<(), Fail> {
    let mut session = begun(rt.alloc())?;
    talk(
        &rt,
        &mut session,
        &[
            ("vCont;s:1;c", "T05thread:1;"),
            ("vCont;s:1", "T05thread:1;"),
            ("p6", "01000000"),
            ("p20", "08000100"),
            ("Hg2", "OK"),
            ("pa", "01000000"),
            ("Z1,10008,4", "OK"),
            ("vCont;c", "T05swbreak:;thread:1;"),
            ("z1,10008,4", "OK"),
            ("vCont;s:1", "T05thread:1;"),
            ("m200000,4", "01000000"),
            ("Z2,200000,4", "OK"),
            ("vCont;c", "T05watch:00200000;thread:2;"),
            ("m200000,4", "01000000"),
            ("z2,200000,4", "OK"),
            ("vCont;s:2", "T05thread:2;"),
            ("m200000,4", "02000000"),
        ],
    )?;
    talk(
        &rt,
        &mut session,
        &[
            ("Z2,200000,4", "OK"),
            ("bc", "T05watch:00200000;thread:2;"),
            ("m200000,4", "02000000"),
            ("z2,200000,4", "OK"),
            ("Hc2", "OK"),
            ("bs", "T05thread:2;"),
            ("m200000,4", "01000000"),
            ("Z2,200000,4", "OK"),
            ("bc", "T05watch:00200000;thread:1;"),
            ("z2,200000,4", "OK"),
            ("Hc0", "OK"),
            ("bs", "T05thread:1;"),
            ("m200000,4", "00000000"),
            ("bc", "T05replaylog:begin;thread:1;"),
            ("bs", "T05replaylog:begin;thread:1;"),
            ("vCont;c", "T05replaylog:end;thread:1;"),
            ("vCont;s:2", "T05replaylog:end;thread:2;"),
            ("qThreadExtraInfo,2", "66696e6973686564"),
            ("m200000,4", "02000000"),
            ("qRcmd,676f746f2035", "646f6e650a"),
            ("m200000,4", "01000000"),
            (
                "qRcmd,676f746f203130",
                "746865206c6f6720686173206e6f207375636820706c6163650a",
            ),
            ("qRcmd,676f", "756e6b6e6f776e0a"),
            ("vCont;s:2", "T05thread:2;"),
        ],
    )
}

#[test]
fn a_break_stops_both_ways(rt: HostRuntime) -> Result<(), Fail> {
    let mut session = begun(rt.alloc())?;
    talk(
        &rt,
        &mut session,
        &[
            ("Z0,10004,4", "OK"),
            ("vCont;c", "T05swbreak:;thread:2;"),
            ("vCont;s:2", "T05thread:2;"),
            ("vCont;c", "T05swbreak:;thread:1;"),
            ("bc", "T05swbreak:;thread:2;"),
            ("bc", "T05replaylog:begin;thread:2;"),
        ],
    )
}

#[test]
fn all_registers_are_told(rt: HostRuntime) -> Result<(), Fail> {
    let mut session = begun(rt.alloc())?;
    let mut out = Vec::new(rt.alloc());
    session.answer(rt.alloc(), b"g", &mut out)?;
    assert_eq!(rt; out.len(), 1304);
    assert_eq!(rt; &out[80..96], b"0000000002000000".as_slice());
    Ok(())
}

#[test]
fn some_requests_end_the_talk(rt: HostRuntime) {
    let cases: [(&[u8], Ending); 4] = [
        (b"D;1", Ending::Answered),
        (b"vKill;1", Ending::Answered),
        (b"k", Ending::Unanswered),
        (b"vCont;c", Ending::GoesOn),
    ];
    for (payload, ending) in cases {
        assert_eq!(rt; ending_of(payload), ending);
    }
}
