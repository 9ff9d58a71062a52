//! Messages by the bytes that the format gives them.
ghost use Rattle.std.specs.Prelude.{◌≤◌, length};

use fed_messages::{
    Envelope, FromSite, Packet, ToSite, decode_from, decode_to, encode_from, encode_to,
};
use mdb_base::{Key, PlainAct, Reply, Tid, Tx, Why};
use presumptions::Decision;

const TID: Tid = Tid {
    tx: Tx(258),
    attempt: 31,
};

/// The packet with these bytes in front, and 0 behind them.
fn packet(front: &[u8]) -> Packet
    requires { length front.now ≤ 40 }
{
    let mut bytes = [0; 40];
    for (i, byte) in front.iter().enumerate() {
        bytes[i] = *byte;
    }
    Packet {
        len: front.len() as u8,
        bytes,
    }
}

// The bytes of what is read, which are others for each message.
fn read_to(packet: &Packet) -> Option<Packet> {
    match decode_to(packet) {
        Some(envelope) => Some(encode_to(&envelope)),
        None => None,
    }
}

fn read_from(packet: &Packet) -> Option<Packet> {
    match decode_from(packet) {
        Some(envelope) => Some(encode_from(&envelope)),
        None => None,
    }
}

#[test]
fn the_longest_message_has_34_bytes(rt: HostRuntime) {
    let act = PlainAct::Write(Key(0x0304), 0x05060708090a0b0c);
    let work = Envelope {
        index: 0x11121314,
        stamp: 0x2122232425262728,
        message: ToSite::Work {
            tid: TID,
            epoch: 0x31323334,
            n: 7,
            act,
        },
    };
    let spelled = packet(&[
        0x11, 0x12, 0x13, 0x14, 0x21, 0x22, 0x23, 0x24, 0x25, 0x26, 0x27, 0x28, 1, 0, 0, 1, 2, 31,
        0x31, 0x32, 0x33, 0x34, 7, 2, 3, 4, 5, 6, 7, 8, 9, 10, 11, 12,
    ]);
    assert_eq!(rt; spelled.len, 34);
    assert_eq!(rt; encode_to(&work), spelled);
    assert_eq!(rt; read_to(&spelled), Some(spelled));
}

#[test]
fn each_message_to_a_site_has_its_bytes(rt: HostRuntime) {
    let read = PlainAct::Read(Key(9));
    for (message, tail) in [
        (
            ToSite::Work {
                tid: TID,
                epoch: 2,
                n: 0,
                act: read,
            },
            [1, 0, 0, 1, 2, 31, 0, 0, 0, 2, 0, 1, 0, 9].as_slice(),
        ),
        (
            ToSite::Take {
                tid: TID,
                epoch: 2,
                n: 3,
            },
            [2, 0, 0, 1, 2, 31, 0, 0, 0, 2, 3].as_slice(),
        ),
        (
            ToSite::Prepare {
                tid: TID,
                epoch: 2,
                n: 4,
            },
            [3, 0, 0, 1, 2, 31, 0, 0, 0, 2, 4].as_slice(),
        ),
        (
            ToSite::Decide {
                tid: TID,
                decision: Decision::Commit,
            },
            [4, 0, 0, 1, 2, 31, 1].as_slice(),
        ),
        (
            ToSite::Decide {
                tid: TID,
                decision: Decision::Abort,
            },
            [4, 0, 0, 1, 2, 31, 2].as_slice(),
        ),
    ] {
        let envelope = Envelope {
            index: 0,
            stamp: 0,
            message,
        };
        let spelled = encode_to(&envelope);
        assert_eq!(rt; spelled.len as usize, 12 + tail.len());
        assert_eq!(rt; &spelled.bytes[12..12 + tail.len()], tail);
        assert_eq!(rt; read_to(&spelled), Some(spelled));
    }
}

#[test]
fn each_message_from_a_site_has_its_bytes(rt: HostRuntime) {
    let key = Key(513);
    for (reply, tail) in [
        (Reply::Done, [0].as_slice()),
        (Reply::Value(3), [1, 0, 0, 0, 0, 0, 0, 0, 3].as_slice()),
        (Reply::Ticket(4), [2, 0, 0, 0, 0, 0, 0, 0, 4].as_slice()),
        (Reply::Wait { by: TID }, [3, 0, 0, 1, 2, 31].as_slice()),
        (
            Reply::Refused(Why::Die { by: TID }),
            [4, 0, 0, 1, 2, 31].as_slice(),
        ),
        (
            Reply::Refused(Why::Late { by: TID }),
            [5, 0, 0, 1, 2, 31].as_slice(),
        ),
        (
            Reply::Refused(Why::Invalid { by: TID, key }),
            [6, 0, 0, 1, 2, 31, 2, 1].as_slice(),
        ),
        (
            Reply::Refused(Why::TicketMoved { by: TID }),
            [7, 0, 0, 1, 2, 31].as_slice(),
        ),
        (Reply::Unknown, [8].as_slice()),
    ] {
        let message = FromSite::Did {
            tid: TID,
            epoch: 1,
            n: 5,
            reply,
        };
        let envelope = Envelope {
            index: 0,
            stamp: 0,
            message,
        };
        let spelled = encode_from(&envelope);
        assert_eq!(rt;
            &spelled.bytes[12..23],
            [1, 0, 0, 1, 2, 31, 0, 0, 0, 1, 5].as_slice()
        );
        assert_eq!(rt; &spelled.bytes[23..23 + tail.len()], tail);
        assert_eq!(rt; read_from(&spelled), Some(spelled));
    }
    for (message, tail) in [
        (
            FromSite::Vote {
                tid: TID,
                yes: None,
            },
            [2, 0, 0, 1, 2, 31, 0].as_slice(),
        ),
        (
            FromSite::Vote {
                tid: TID,
                yes: Some(6),
            },
            [2, 0, 0, 1, 2, 31, 1, 0, 0, 0, 0, 0, 0, 0, 6].as_slice(),
        ),
        (FromSite::Ack { tid: TID }, [3, 0, 0, 1, 2, 31].as_slice()),
        (
            FromSite::Inquiry { tid: TID },
            [4, 0, 0, 1, 2, 31].as_slice(),
        ),
    ] {
        let envelope = Envelope {
            index: 0,
            stamp: 0,
            message,
        };
        let spelled = encode_from(&envelope);
        assert_eq!(rt; spelled.len as usize, 12 + tail.len());
        assert_eq!(rt; &spelled.bytes[12..12 + tail.len()], tail);
        assert_eq!(rt; read_from(&spelled), Some(spelled));
    }
}

#[test]
fn what_is_no_envelope_is_not_read(rt: HostRuntime) {
    assert_eq!(rt; read_to(&packet(&[])), None);
    let ack = packet(&[0, 0, 0, 0, 0, 0, 0, 0, 0, 0, 0, 0, 3, 0, 0, 1, 2, 31]);
    assert!(rt; decode_from(&ack).is_some());
    // as a message to a site it is cut off
    assert_eq!(rt; read_to(&ack), None);
    for len in [0, 1, 17, 19, 40, 41, 255] {
        assert_eq!(rt;
            read_from(&Packet {
                len,
                bytes: ack.bytes
            }),
            None
        );
    }
    // a kind that isn't there, and attempts out of their range
    assert_eq!(rt;
        read_from(&packet(&[0, 0, 0, 0, 0, 0, 0, 0, 0, 0, 0, 0, 5, 0, 0, 1, 2, 31])),
        None
    );
    assert_eq!(rt;
        read_from(&packet(&[0, 0, 0, 0, 0, 0, 0, 0, 0, 0, 0, 0, 3, 0, 0, 4, 1, 31])),
        None
    );
    assert_eq!(rt;
        read_from(&packet(&[0, 0, 0, 0, 0, 0, 0, 0, 0, 0, 0, 0, 3, 0, 0, 1, 2, 32])),
        None
    );
}
