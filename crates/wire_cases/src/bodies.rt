// Each body, written and read: the bytes of `vectors` and the packet that they are.
use crate::vectors::{
    DATA, EJECT, EOS, HACK, HEARTBEAT, HEARTBEAT_RESPONSE, JOIN_ACK, JOIN_CONFIRM, JOIN_STREAM,
    LEAVE_CONFIRM, LEAVE_STREAM, NULL_DATA, RETRANSMISSION,
};
use answer::Refusal::{OutOfRange, ShortOutput};
use std::test::Fail;
use wire::{Body, Hack, Message, Packet, TreeId, read, write};

const REPORT: Hack = Hack {
    term: 1,
    serial: 9,
    lsn: 40,
    hsn: 72,
    flags: [0xff7e_dc7f, 0xff80_0000, 0, 0, 0, 0, 0, 0, 0],
};

// Each body, and its packet in bytes.
const BODIES: [(Body<&[u8]>, &[u8]); 13] = [
    (
        Body::Data {
            number: 5,
            payload: b"abc",
        },
        DATA,
    ),
    (
        Body::Retransmission {
            number: 6,
            payload: b"z",
        },
        RETRANSMISSION,
    ),
    (Body::Hack(REPORT), HACK),
    (Body::JoinStream { term: 2 }, JOIN_STREAM),
    (Body::JoinAck { term: 3 }, JOIN_ACK),
    (
        Body::JoinConfirm {
            term: 4,
            start: 10,
            slot: 15,
        },
        JOIN_CONFIRM,
    ),
    (Body::LeaveStream { term: 5 }, LEAVE_STREAM),
    (Body::Heartbeat { clock: 1000 }, HEARTBEAT),
    (Body::NullData { highest: 0 }, NULL_DATA),
    (Body::Eject { term: 6 }, EJECT),
    (
        Body::Eos {
            highest: u32::MAX - 1,
        },
        EOS,
    ),
    (
        Body::HeartbeatResponse {
            term: 7,
            clock: 2000,
        },
        HEARTBEAT_RESPONSE,
    ),
    (Body::LeaveConfirm { term: u32::MAX }, LEAVE_CONFIRM),
];

fn packet(body: Body<&[u8]>) -> Packet<'_> {
    Message {
        tree: TreeId([1, 2, 3, 4, 5, 6]),
        stream: 32769,
        writer: 7,
        addressee: 9,
        body,
    }
}

// Whether a packet is written as just these bytes.
fn is_written_as(packet: &Packet<'_>, bytes: &[u8]) -> bool {
    let mut out = [0xa5u8; 80];
    write(packet, &mut out).is_ok_and(|len| len < 80 && &out[..len] == bytes && out[len] == 0xa5)
}

#[test]
fn each_body_is_its_bytes(rt: HostRuntime) -> Result<(), Fail> {
    for (body, bytes) in BODIES {
        assert!(rt; is_written_as(&packet(body), bytes), "write");
        assert!(rt; is_written_as(&read(bytes)?, bytes), "read");
    }
    Ok(())
}

#[test]
fn header_is_read(rt: HostRuntime) -> Result<(), Fail> {
    assert_eq!(rt; read(JOIN_STREAM)?, packet(Body::JoinStream { term: 2 }));
    Ok(())
}

#[test]
fn payload_is_lent(rt: HostRuntime) -> Result<(), Fail> {
    let lent: Body<&[u8]> = Body::Data {
        number: 5,
        payload: b"abc",
    };
    assert_eq!(rt; read(DATA)?.body, lent);
    Ok(())
}

#[test]
fn longest_payload(rt: HostRuntime) -> Result<(), Fail> {
    let payload = [7u8; 512];
    let longest: Body<&[u8]> = Body::Data {
        number: u32::MAX - 1,
        payload: &payload,
    };
    let mut short = [0u8; 533];
    assert_eq!(rt; write(&packet(longest), &mut short), Err(ShortOutput));
    let mut out = [0u8; 534];
    assert_eq!(rt; write(&packet(longest), &mut out), Ok(534));
    assert_eq!(rt; read(&out)?, packet(longest));
    Ok(())
}

#[test]
fn payload_out_of_range(rt: HostRuntime) {
    let payload = [7u8; 513];
    let mut out = [0u8; 600];
    let longer: Body<&[u8]> = Body::Data {
        number: 1,
        payload: &payload,
    };
    assert_eq!(rt; write(&packet(longer), &mut out), Err(OutOfRange));
    let empty: Body<&[u8]> = Body::Retransmission {
        number: 1,
        payload: &[],
    };
    assert_eq!(rt; write(&packet(empty), &mut out), Err(OutOfRange));
}

// A value out of range is told before a buffer that is short, and neither writes a byte.
#[test]
fn refused_write_leaves_the_buffer(rt: HostRuntime) {
    let mut out = [0xa5u8; 19];
    let zero: Body<&[u8]> = Body::Data {
        number: 0,
        payload: b"abc",
    };
    assert_eq!(rt; write(&packet(zero), &mut out), Err(OutOfRange));
    assert_eq!(rt;
        write(&packet(Body::Eject { term: 6 }), &mut out),
        Err(ShortOutput)
    );
    assert!(rt; out == [0xa5u8; 19]);
}
