// What a packet of a child makes of its row: every row of the table, by hand.
use answer::Outcome;
use rows::row::{Decision, FromChild, Parent, Reply, Row};
use std::process::Abort;
use wire::Hack;

const JOINED: Parent = Parent {
    joined: true,
    low: 50,
    slot: 3,
};

const OUTSIDE: Parent = Parent {
    joined: false,
    ..JOINED
};

const REPORT: Hack = Hack {
    term: 4,
    serial: 7,
    lsn: 60,
    hsn: 61,
    flags: [0; 9],
};

// The part of a row that a case looks at.
#[derive(Clone, Copy, PartialEq, Eq, Debug)]
struct Seen {
    child: u16,
    live: bool,
    term: u32,
    start: u32,
    low: u32,
    high: u32,
    heard: u32,
}

// The row that `live` makes.
const LIVE: Seen = Seen {
    child: 9,
    live: true,
    term: 4,
    start: 50,
    low: 50,
    high: 49,
    heard: 100,
};

impl From<Row> for Seen {
    fn from(row: Row) -> Seen {
        Seen {
            child: row.child,
            live: row.live,
            term: row.hack.term,
            start: row.start,
            low: row.hack.lsn,
            high: row.hack.hsn,
            heard: row.heard,
        }
    }
}

// Live at term 4 from number 50 on, heard at 100.
fn live() -> Row {
    Row::new(9)
        .decide(JOINED, FromChild::JoinStream { term: 4 }, 100)
        .row
}

// Dead at term 4.
fn dead() -> Row {
    live()
        .decide(JOINED, FromChild::LeaveStream { term: 4 }, 200)
        .row
}

fn expect(rt: &impl Abort, decision: Decision, outcome: Outcome, reply: Option<Reply>) {
    assert_eq!(rt; decision.outcome, outcome);
    assert_eq!(rt; decision.reply, reply);
}

#[test]
fn asks_in(rt: HostRuntime) {
    let confirm = Reply::JoinConfirm { start: 50, slot: 3 };
    expect(
        &rt,
        live().decide(OUTSIDE, FromChild::JoinStream { term: 5 }, 300),
        Outcome::Stale,
        Some(Reply::JoinAck),
    );
    expect(
        &rt,
        live().decide(JOINED, FromChild::JoinStream { term: 3 }, 300),
        Outcome::Stale,
        Some(Reply::Eject),
    );
    expect(
        &rt,
        dead().decide(JOINED, FromChild::JoinStream { term: 4 }, 300),
        Outcome::Stale,
        Some(Reply::Eject),
    );
    expect(
        &rt,
        live().decide(JOINED, FromChild::JoinStream { term: 4 }, 300),
        Outcome::Taken,
        Some(confirm),
    );
    expect(
        &rt,
        dead().decide(JOINED, FromChild::JoinStream { term: 5 }, 300),
        Outcome::Taken,
        Some(confirm),
    );
}

#[test]
fn rows_that_ask_in(rt: HostRuntime) {
    assert_eq!(rt; Seen::from(live()), LIVE);
    let heard = live()
        .decide(JOINED, FromChild::JoinStream { term: 4 }, 300)
        .row;
    assert_eq!(rt; Seen::from(heard), Seen { heard: 300, ..LIVE });
    let later = Parent { low: 80, ..JOINED };
    let told = live().decide(JOINED, FromChild::Hack(REPORT), 150).row;
    let reported = Seen {
        low: 60,
        high: 61,
        heard: 150,
        ..LIVE
    };
    assert_eq!(rt; Seen::from(told), reported);
    let again = told
        .decide(later, FromChild::JoinStream { term: 5 }, 300)
        .row;
    let anew = Seen {
        term: 5,
        start: 80,
        low: 80,
        high: 79,
        heard: 300,
        ..LIVE
    };
    assert_eq!(rt; Seen::from(again), anew);
    assert_eq!(rt; again.hack.serial, 0);
}

#[test]
fn asks_out(rt: HostRuntime) {
    let confirm = Some(Reply::LeaveConfirm);
    expect(
        &rt,
        live().decide(JOINED, FromChild::LeaveStream { term: 3 }, 300),
        Outcome::Stale,
        confirm,
    );
    expect(
        &rt,
        live().decide(OUTSIDE, FromChild::LeaveStream { term: 4 }, 300),
        Outcome::Taken,
        confirm,
    );
    expect(
        &rt,
        dead().decide(JOINED, FromChild::LeaveStream { term: 4 }, 300),
        Outcome::Taken,
        confirm,
    );
    let left = live()
        .decide(JOINED, FromChild::LeaveStream { term: 9 }, 300)
        .row;
    let gone = Seen {
        live: false,
        term: 9,
        ..LIVE
    };
    assert_eq!(rt; Seen::from(left), gone);
}

#[test]
fn reports(rt: HostRuntime) {
    let told = live().decide(JOINED, FromChild::Hack(REPORT), 150).row;
    let next = Hack {
        serial: 8,
        ..REPORT
    };
    expect(
        &rt,
        live().decide(JOINED, FromChild::Hack(REPORT), 150),
        Outcome::Taken,
        None,
    );
    expect(
        &rt,
        told.decide(JOINED, FromChild::Hack(REPORT), 160),
        Outcome::Stale,
        None,
    );
    let back = FromChild::Hack(Hack { lsn: 59, ..next });
    expect(&rt, told.decide(JOINED, back, 160), Outcome::Stale, None);
    expect(
        &rt,
        told.decide(JOINED, FromChild::Hack(next), 160),
        Outcome::Taken,
        None,
    );
    expect(
        &rt,
        dead().decide(JOINED, FromChild::Hack(REPORT), 160),
        Outcome::Stale,
        Some(Reply::Eject),
    );
    expect(
        &rt,
        live().decide(JOINED, FromChild::Hack(Hack { term: 5, ..REPORT }), 160),
        Outcome::Stale,
        Some(Reply::Eject),
    );
}

#[test]
fn responses(rt: HostRuntime) {
    let answered = live().decide(JOINED, FromChild::HeartbeatResponse { term: 4 }, 160);
    expect(&rt, answered, Outcome::Taken, None);
    assert_eq!(rt; Seen::from(answered.row), Seen { heard: 160, ..LIVE });
    expect(
        &rt,
        live().decide(JOINED, FromChild::HeartbeatResponse { term: 3 }, 160),
        Outcome::Stale,
        Some(Reply::Eject),
    );
    expect(
        &rt,
        dead().decide(JOINED, FromChild::HeartbeatResponse { term: 4 }, 160),
        Outcome::Stale,
        Some(Reply::Eject),
    );
}
