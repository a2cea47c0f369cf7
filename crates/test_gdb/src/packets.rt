//! Packets as gdb 13.1 sent them, and those of the manual's examples.

use gdb_packets::{
    Action, MarkKind, PacketReader, Reading, Request, Thread, monitor_digits, push_frame,
    read_request,
};
use std::process::Abort;
use std::test::Fail;

/// The payload of the packet that these bytes end with, if they do.
fn packet_in<R: Abort + AllocGlobal>(
    rt: &R,
    reader: &mut PacketReader,
    bytes: &[u8],
) -> Result<Option<Vec<u8>>, Fail> {
    let mut last = None;
    for &byte in bytes {
        last = reader.take(rt.alloc(), byte)?;
    }
    match last {
        Some(Reading::Packet(payload)) => Ok(Some(payload)),
        _ => Ok(None),
    }
}

#[test]
fn frames_of_gdb_are_read(rt: HostRuntime) -> Result<(), Fail> {
    let mut reader = PacketReader::new(rt.alloc(), 64);
    let cases: [(&[u8], &[u8]); 8] = [
        (b"+$?#3f", b"?"),
        (b"$g#67", b"g"),
        (b"$Hg0#df", b"Hg0"),
        (b"$vMustReplyEmpty#3a", b"vMustReplyEmpty"),
        (b"$QStartNoAckMode#b0", b"QStartNoAckMode"),
        (b"$m0,4$qTStatus#49", b"qTStatus"),
        (b"-\x03$vCont?#49", b"vCont?"),
        (b"$X10,1:}\x03#d0", b"X10,1:#"),
    ];
    for (bytes, payload) in cases {
        match packet_in(&rt, &mut reader, bytes)? {
            Some(found) => assert_eq!(rt; found.as_slice(), payload),
            None => return Err(Fail::new("no packet is read")),
        }
    }
    Ok(())
}

#[test]
fn other_bytes_say_what_they_are(rt: HostRuntime) -> Result<(), Fail> {
    let mut reader = PacketReader::new(rt.alloc(), 4);
    let mut found = Vec::new(rt.alloc());
    reader.read(rt.alloc(), b"+$g#68-\x03$abcde#ef$a}#de$g#6", &mut found)?;
    reader.read(rt.alloc(), b"7$#00", &mut found)?;
    let mut names = String::new(rt.alloc());
    for reading in found.iter() {
        names.push_str(match reading {
            Reading::Packet(payload) => if payload.is_empty() {
                "empty "
            } else {
                "packet "
            },
            Reading::Bad => "bad ",
            Reading::TooLong => "long ",
            Reading::Interrupt => "interrupt ",
            Reading::Again => "again ",
        })?;
    }
    assert_eq!(rt;
        names.as_str(),
        "bad again interrupt long bad packet empty "
    );
    Ok(())
}

#[test]
fn answers_are_framed(rt: HostRuntime) -> Result<(), Fail> {
    let cases: [(&[u8], &[u8]); 4] = [
        (b"", b"$#00"),
        (b"OK", b"$OK#9a"),
        (b"E01", b"$E01#a6"),
        (b"#$*}", b"$}\x03}\x04}\x0a}]#62"),
    ];
    for (payload, frame) in cases {
        let mut out = Vec::new(rt.alloc());
        push_frame(&mut out, payload)?;
        assert_eq!(rt; out.as_slice(), frame);
    }
    Ok(())
}

#[test]
fn requests_are_told_apart(rt: HostRuntime) {
    let cases: [(&[u8], Request); 28] = [
        (b"?", Request::WhyStopped),
        (b"g", Request::Registers),
        (b"p41", Request::Register(65)),
        (b"m10000,4", Request::Memory(0x10000, 4)),
        (b"m100000000,4", Request::Refused),
        (b"m10000", Request::Refused),
        (b"Hg0", Request::FocusForState(Thread::Any)),
        (b"Hc-1", Request::FocusForSteps(Thread::All)),
        (b"Hca", Request::FocusForSteps(Thread::One(10))),
        (b"T8", Request::IsAlive(Thread::One(8))),
        (b"vCont?", Request::Actions),
        (b"vCont;s:1;c", Request::Go(Action::Step(Thread::One(1)))),
        (b"vCont;c", Request::Go(Action::Continue(Thread::All))),
        (
            b"vCont;C05:2",
            Request::Go(Action::Continue(Thread::One(2))),
        ),
        (b"vCont;x", Request::Refused),
        (b"bs", Request::Go(Action::StepBack)),
        (b"bc", Request::Go(Action::ContinueBack)),
        (
            b"Z2,200010,4",
            Request::SetMark(MarkKind::Write, 0x200010, 4),
        ),
        (
            b"z1,10004,4",
            Request::ClearMark(MarkKind::HardwareBreak, 0x10004, 4),
        ),
        (b"Z5,0,4", Request::Refused),
        (b"qSupported:multiprocess+", Request::Supported),
        (
            b"qXfer:features:read:target.xml:0,1000",
            Request::TargetDescription(0, 4096),
        ),
        (b"qXfer:features:read:other.xml:0,1000", Request::OtherAnnex),
        (
            b"qXfer:memory-map:read::0,1000",
            Request::MemoryMap(0, 4096),
        ),
        (b"qThreadExtraInfo,3", Request::ThreadInfo(Thread::One(3))),
        (b"qCRC:10000,40", Request::Unknown),
        (b"vKill;1", Request::KillProcess),
        (b"M10000,1:ff", Request::Refused),
    ];
    for (payload, request) in cases {
        assert_eq!(rt; read_request(payload), request);
    }
    assert_eq!(rt; monitor_digits(b"qRcmd,676f"), b"676f".as_slice());
}
