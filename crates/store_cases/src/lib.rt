// Cases for both kinds of store, run through the same steps: each refusal at its edges, capacity 0, 1 and many,
// the longest payload, slots that wrap, and forgetting nothing and all.
#![tactic(auto)]

#[cfg(test)]
mod tests {
    use answer::Refusal;
    use card::Card;
    use memory::journal::Journal;
    use memory::slots::SlotStore;
    use std::alloc::Global;
    use std::process::Abort;
    use std::test::Fail;
    use store::{MadeOver, Store};

    // Written out: what is expected does not come from the code.
    const LAST: u32 = 4_294_967_294;

    // One call, and what it must answer. A payload's bytes follow from its number. An enum and no closures: each list of steps
    // runs over three types of store.
    #[derive(Clone, Copy)]
    enum Step {
        Put(u32, usize, Result<(), Refusal>),
        Copy(u32, usize, Result<usize, Refusal>),
        Has(u32, bool),
        Forget(u32),
    }

    // Byte `i` of the payload that is put under `number`.
    fn byte_of(number: u32, i: usize) -> u8 {
        ((u64::from(number) % 251 + i as u64 % 251) % 251) as u8
    }

    const OK: Result<(), Refusal> = Ok(());

    const BAD_NUMBER: Result<(), Refusal> = Err(Refusal::BadNumber);

    const BAD_LENGTH: Result<(), Refusal> = Err(Refusal::BadLength);

    const HELD: Result<(), Refusal> = Err(Refusal::Held);

    const FULL: Result<(), Refusal> = Err(Refusal::Full);

    const NOT_HELD: Result<usize, Refusal> = Err(Refusal::NotHeld);

    const SHORT: Result<usize, Refusal> = Err(Refusal::ShortBuffer);

    // 517 bytes: no room for one record.
    const NO_ROOM: [Step; 6] = [
        Step::Put(0, 0, BAD_NUMBER),
        Step::Put(1, 0, BAD_LENGTH),
        Step::Put(1, 1, FULL),
        Step::Has(1, false),
        Step::Copy(1, 512, NOT_HELD),
        Step::Forget(LAST),
    ];

    // 518 bytes: room for one.
    const ONE: [Step; 11] = [
        Step::Put(LAST, 512, OK),
        Step::Has(LAST, true),
        Step::Put(LAST, 1, HELD),
        Step::Put(1, 1, FULL),
        Step::Copy(LAST, 511, SHORT),
        Step::Copy(LAST, 512, Ok(512)),
        Step::Copy(LAST, 520, Ok(512)),
        Step::Forget(LAST - 1),
        Step::Has(LAST, true),
        Step::Forget(LAST),
        Step::Put(1, 1, OK),
    ];

    // Each refusal alone, with room for more.
    const ALONE: [Step; 8] = [
        Step::Put(0, 1, BAD_NUMBER),
        Step::Put(u32::MAX, 512, BAD_NUMBER),
        Step::Put(1, 0, BAD_LENGTH),
        Step::Put(1, 513, BAD_LENGTH),
        Step::Put(1, 1, OK),
        Step::Put(1, 1, HELD),
        Step::Copy(u32::MAX, 512, NOT_HELD),
        Step::Copy(1, 0, SHORT),
    ];

    // Two faults at once: the earlier wins.
    const ORDER: [Step; 11] = [
        Step::Put(7, 3, OK),
        Step::Put(8, 4, OK),
        Step::Put(0, 513, BAD_NUMBER),
        Step::Put(u32::MAX, 0, BAD_NUMBER),
        Step::Put(7, 0, BAD_LENGTH),
        Step::Put(7, 513, BAD_LENGTH),
        Step::Put(7, 512, HELD),
        Step::Put(9, 512, FULL),
        Step::Copy(0, 0, NOT_HELD),
        Step::Copy(7, 2, SHORT),
        Step::Copy(7, 3, Ok(3)),
    ];

    // Numbers that share a home slot (4 slots), and gaps that close.
    const WRAP: [Step; 22] = [
        Step::Put(6, 10, OK),
        Step::Put(2, 20, OK),
        Step::Put(10, 30, OK),
        Step::Has(14, false),
        Step::Put(3, 512, OK),
        Step::Put(4, 1, FULL),
        Step::Copy(10, 30, Ok(30)),
        Step::Copy(2, 20, Ok(20)),
        Step::Forget(1),
        Step::Copy(3, 512, Ok(512)),
        Step::Forget(3),
        Step::Has(2, false),
        Step::Has(3, false),
        Step::Copy(6, 10, Ok(10)),
        Step::Copy(10, 31, Ok(30)),
        Step::Put(3, 5, OK),
        Step::Put(7, 6, OK),
        Step::Copy(7, 6, Ok(6)),
        Step::Copy(3, 5, Ok(5)),
        Step::Forget(u32::MAX),
        Step::Has(10, false),
        Step::Put(10, 1, OK),
    ];

    // Forgetting nothing, then all.
    const FORGET: [Step; 11] = [
        Step::Put(1, 1, OK),
        Step::Put(2, 2, OK),
        Step::Put(3, 3, OK),
        Step::Forget(0),
        Step::Has(1, true),
        Step::Has(0, false),
        Step::Has(u32::MAX, false),
        Step::Forget(3),
        Step::Has(3, false),
        Step::Copy(1, 1, NOT_HELD),
        Step::Put(2, 2, OK),
    ];

    fn put<S: Store>(store: &mut S, number: u32, len: usize) -> Result<(), Refusal> {
        let mut payload = [0u8; 513];
        for (i, byte) in payload.iter_mut().enumerate() {
            *byte = byte_of(number, i);
        }
        store.put(number, &payload[..len.min(513)])
    }

    // Bytes beyond the payload, and all of them on a refusal, stay as they were. `kind` names the store in messages, since a
    // type has no name.
    fn copy<S: Store>(
        rt: &impl Abort,
        kind: &str,
        store: &mut S,
        number: u32,
        room: usize,
    ) -> Result<usize, Refusal> {
        let mut buffer = [255u8; 520];
        let answer = store.copy(number, &mut buffer[..room.min(520)]);
        let front = answer.unwrap_or(0);
        for (i, byte) in buffer.iter().enumerate() {
            let want = if i < front { byte_of(number, i) } else { 255 };
            assert_eq!(rt; *byte, want, "{kind}");
        }
        answer
    }

    fn take_step<S: Store>(
        rt: &impl Abort,
        kind: &str,
        store: &mut S,
        step: Step,
    ) -> Result<(), Fail> {
        match step {
            Step::Put(number, len, want) => {
                assert_eq!(rt; put(store, number, len), want, "{kind}");
                Ok(())
            },
            Step::Copy(number, room, want) => {
                let answer = copy(rt, kind, store, number, room);
                assert_eq!(rt; answer, want, "{kind}");
                Ok(())
            }
            Step::Has(number, want) => {
                assert_eq!(rt; store.has(number), want, "{kind}");
                Ok(())
            },
            Step::Forget(number) => {
                store.forget(number);
                Ok(())
            }
        }
    }

    fn take_steps<S: Store>(
        rt: &impl Abort,
        kind: &str,
        store: &mut S,
        steps: &[Step],
    ) -> Result<(), Fail> {
        for step in steps {
            take_step(rt, kind, store, *step)?;
        }
        Ok(())
    }

    fn play<S: MadeOver + Drop>(
        rt: &impl Abort,
        kind: &str,
        heap: Global,
        bytes: usize,
        steps: &[Step],
    ) -> Result<(), Fail> {
        let mut store = S::new(vec![in heap; 170u8; bytes]?);
        take_steps(rt, kind, &mut store, steps)?;
        assert_eq!(rt; store.into_memory().len(), bytes, "{kind}");
        Ok(())
    }

    fn play_both(
        rt: &(impl Abort + AllocGlobal),
        bytes: usize,
        steps: &[Step],
    ) -> Result<(), Fail> {
        play::<Journal>(rt, "journal", rt.alloc(), bytes, steps)?;
        play::<SlotStore>(rt, "slot store", rt.alloc(), bytes, steps)
    }

    #[test]
    fn memory_too_small_for_a_record(rt: HostRuntime) -> Result<(), Fail> {
        play_both(&rt, 0, &NO_ROOM)?;
        play_both(&rt, 517, &NO_ROOM)
    }

    #[test]
    fn room_for_one(rt: HostRuntime) -> Result<(), Fail> {
        play_both(&rt, 518, &ONE)?;
        play_both(&rt, 1035, &ONE)
    }

    #[test]
    fn a_card_for_one(rt: HostRuntime) -> Result<(), Fail> {
        let mut card = Card::new(vec![in rt.alloc(); 170u8; 512]?);
        take_steps(&rt, "card", &mut card, &ONE)?;
        let mut too_small = Card::new(vec![in rt.alloc(); 170u8; 511]?);
        take_steps(&rt, "card", &mut too_small, &NO_ROOM)
    }

    #[test]
    fn the_earlier_refusal_wins(rt: HostRuntime) -> Result<(), Fail> {
        play_both(&rt, 1036, &ALONE)?;
        play_both(&rt, 1036, &ORDER)
    }

    #[test]
    fn numbers_that_share_a_home(rt: HostRuntime) -> Result<(), Fail> {
        play_both(&rt, 2072, &WRAP)
    }

    #[test]
    fn forgets_nothing_and_all(rt: HostRuntime) -> Result<(), Fail> {
        play_both(&rt, 5180, &FORGET)
    }
}
