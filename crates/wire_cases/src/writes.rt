// Packets that are not written, and the refusal; none where they are.
use answer::Refusal;
use answer::Refusal::{OutOfRange, ShortOutput};
use std::convert::Infallible;
use std::process::Abort;
use wire::{Body, Hack, Message, Packet, TreeId, write};

const REPORT: Hack = Hack {
    term: 1,
    serial: 1,
    lsn: 40,
    hsn: 72,
    flags: [0; 9],
};

// The flag of LSN 40 is at position 8 of the first word.
const LOW_FLAG: Hack = Hack {
    flags: [0x0080_0000, 0, 0, 0, 0, 0, 0, 0, 0],
    ..REPORT
};

const NO_TERM: Hack = Hack { term: 0, ..REPORT };

// Writes to so many bytes, which a refusal leaves as they are.
fn refusal_of(rt: &impl Abort, packet: &Packet<'_>, room: usize) -> Option<Refusal> {
    let mut out = [170u8; 48];
    let refusal = write(packet, &mut out[0..room.min(48)]).err();
    assert!(rt; refusal.is_none() || out == [170u8; 48]);
    refusal
}

fn refusal(
    rt: &impl Abort,
    stream: u16,
    writer: u16,
    body: Body<Infallible>,
    room: usize,
) -> Option<Refusal> {
    refusal_of(
        rt,
        &Packet::bare(TreeId([1; 6]), stream, writer, 0, body),
        room,
    )
}

fn data_refusal(rt: &impl Abort, number: u32, payload: &[u8], room: usize) -> Option<Refusal> {
    let packet = Message {
        tree: TreeId([1; 6]),
        stream: 40000,
        writer: 1,
        addressee: 0,
        body: Body::Data { number, payload },
    };
    refusal_of(rt, &packet, room)
}

#[test]
fn headers(rt: HostRuntime) {
    assert_eq!(rt;
        refusal(&rt, 32768, 1, Body::Heartbeat { clock: 0 }, 20),
        None
    );
    assert_eq!(rt;
        refusal(&rt, 32767, 1, Body::Heartbeat { clock: 0 }, 20),
        Some(OutOfRange)
    );
    assert_eq!(rt;
        refusal(&rt, 32768, 0, Body::Heartbeat { clock: 0 }, 20),
        Some(OutOfRange)
    );
    assert_eq!(rt;
        refusal(&rt, 32767, 1, Body::Heartbeat { clock: 0 }, 19),
        Some(OutOfRange)
    );
    assert_eq!(rt;
        refusal(&rt, 65535, 65535, Body::Heartbeat { clock: 0 }, 19),
        Some(ShortOutput)
    );
}

#[test]
fn ranges(rt: HostRuntime) {
    assert_eq!(rt;
        refusal(
            &rt,
            40000,
            1,
            Body::JoinConfirm {
                term: 1,
                start: 1,
                slot: 16,
            },
            48,
        ),
        Some(OutOfRange)
    );
    assert_eq!(rt;
        refusal(
            &rt,
            40000,
            1,
            Body::JoinConfirm {
                term: 1,
                start: 0,
                slot: 15,
            },
            48,
        ),
        Some(OutOfRange)
    );
    assert_eq!(rt;
        refusal(&rt, 40000, 1, Body::JoinAck { term: 0 }, 48),
        Some(OutOfRange)
    );
    assert_eq!(rt;
        refusal(&rt, 40000, 1, Body::NullData { highest: u32::MAX }, 48),
        Some(OutOfRange)
    );
    assert_eq!(rt;
        refusal(
            &rt,
            40000,
            1,
            Body::Eos {
                highest: u32::MAX - 1,
            },
            48,
        ),
        None
    );
    assert_eq!(rt; data_refusal(&rt, 1, b"", 48), Some(OutOfRange));
    assert_eq!(rt; data_refusal(&rt, u32::MAX, b"a", 48), Some(OutOfRange));
    assert_eq!(rt;
        refusal(&rt, 40000, 1, Body::Hack(LOW_FLAG), 48),
        Some(OutOfRange)
    );
    assert_eq!(rt;
        refusal(&rt, 40000, 1, Body::Hack(NO_TERM), 48),
        Some(OutOfRange)
    );
}

#[test]
fn short_buffers(rt: HostRuntime) {
    assert_eq!(rt;
        refusal(
            &rt,
            40000,
            1,
            Body::JoinConfirm {
                term: 1,
                start: 1,
                slot: 15,
            },
            25,
        ),
        Some(ShortOutput)
    );
    assert_eq!(rt;
        refusal(
            &rt,
            40000,
            1,
            Body::JoinConfirm {
                term: 1,
                start: 1,
                slot: 15,
            },
            26,
        ),
        None
    );
    assert_eq!(rt;
        refusal(
            &rt,
            40000,
            1,
            Body::HeartbeatResponse { term: 1, clock: 0 },
            23
        ),
        Some(ShortOutput)
    );
    assert_eq!(rt;
        refusal(
            &rt,
            40000,
            1,
            Body::HeartbeatResponse { term: 1, clock: 0 },
            24
        ),
        None
    );
    assert_eq!(rt;
        refusal(&rt, 40000, 1, Body::Hack(REPORT), 45),
        Some(ShortOutput)
    );
    assert_eq!(rt; refusal(&rt, 40000, 1, Body::Hack(REPORT), 46), None);
    assert_eq!(rt; data_refusal(&rt, 1, b"abc", 24), Some(ShortOutput));
    assert_eq!(rt; data_refusal(&rt, 1, b"abc", 25), None);
}

#[test]
fn no_list_of_a_report_out_of_range(rt: HostRuntime) {
    let mut numbers = [7u32; 40];
    assert_eq!(rt; NO_TERM.missing(&mut numbers), Err(OutOfRange));
    assert!(rt; numbers == [7u32; 40]);
}
