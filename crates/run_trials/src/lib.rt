// Trials of runs over call words: the worked example, each refusal by its words, except that of the clock at its end, which no run
// can reach in time, and each stop. The expected answers are worked out by hand from docs/RULES.md and docs/WORDS.md.
#![tactic(auto)]

#[cfg(test)]
mod tests {
    use cabinet::{Cabinet, NotStarted, start};
    use calls::{Refusal, Stop};
    use host::{Report, run};
    use std::alloc::{AllocError, AllocGlobal, Global};
    use std::process::Abort;
    use std::test::Fail;

    // What stands in the place for answers before a run.
    const UNTOUCHED: u8 = 0xee;

    // Some words, one behind the other.
    fn bytes_of(heap: Global, words: &[u32]) -> Result<Vec<u8>, AllocError> {
        let mut bytes = Vec::new(heap);
        for word in words {
            bytes.extend_from_slice(&word.to_be_bytes())?;
        }
        Ok(bytes)
    }

    // A run over these bytes, with so much room, makes so many calls, stops so, writes just these answers, and leaves the
    // bytes past them.
    fn runs(
        rt: &(impl Abort + AllocGlobal),
        cabinet: &mut Cabinet,
        bytes: &[u8],
        room: usize,
        answers: &[u32],
        calls: usize,
        stop: Stop,
    ) -> Result<(), Fail> {
        let heap = rt.alloc();
        let wanted = bytes_of(heap, answers)?;
        let mut out = vec![in heap; UNTOUCHED; room]?;
        let report = run(cabinet, bytes, &mut out);
        let written = wanted.len();
        assert_eq!(rt;
            report,
            Report {
                calls,
                written,
                stop
            }
        );
        assert_eq!(rt; out.len(), room);
        assert!(rt; written <= room);
        assert!(rt; &out[..written] == wanted.as_slice());
        assert!(rt; out[written..].iter().all(|byte| *byte == UNTOUCHED));
        Ok(())
    }

    // Each call, by its words, has its answer, in words.
    fn answered(
        rt: &(impl Abort + AllocGlobal),
        cabinet: &mut Cabinet,
        calls: &[(&[u32], &[u32])],
    ) -> Result<(), Fail> {
        let heap = rt.alloc();
        let mut words = Vec::new(heap);
        let mut answers = Vec::new(heap);
        for (call, answer) in calls {
            words.extend_from_slice(&bytes_of(heap, call)?)?;
            answers.extend_from_slice(answer)?;
        }
        runs(rt, cabinet, &words, 256, &answers, calls.len(), Stop::End)
    }

    // A cabinet with an empty tape.
    fn without_tape(heap: Global, tasks: u8, rate: u8) -> Result<Cabinet, NotStarted> {
        start(heap, tasks, rate, Vec::new(heap))
    }

    #[test]
    fn worked_example(rt: HostRuntime) -> Result<(), Fail> {
        let heap = rt.alloc();
        let mut cabinet = start(heap, 4, 1, vec![in heap; 0x41, 0x0d]?)?;
        let calls: [(&[u32], &[u32]); 8] = [
            (&[0x1005_0a00, 0x0000_0200, 0x0000_0007], &[0xc000_0001]),
            (&[0x8300_0000], &[0xc001_0000]),
            (&[0x9000_0000], &[0xc001_0000]),
            (&[0x9000_0000], &[0xc000_0001]),
            (&[0xb200_0000], &[0xc000_2502, 0x0041_0d00]),
            (&[0x2000_0000], &[0xc001_0000]),
            (&[0x2000_0000], &[0xc0ff_0000]),
            (&[0x2000_0000], &[0xd0ff_0001]),
        ];
        answered(&rt, &mut cabinet, &calls)
    }

    // The refusals that one task meets, where there is no clock.
    #[test]
    fn refused_to_one(rt: HostRuntime) -> Result<(), Fail> {
        let mut cabinet = without_tape(rt.alloc(), 1, 0)?;
        let calls: [(&[u32], &[u32]); 17] = [
            // a create, for which no record is free
            (&[0x1000_0a00, 0x0000_0000, 0x0000_0000], &[0xd000_0002]),
            // kills by id 9 and by id 0
            (&[0x3000_0900], &[0xd000_0004]),
            (&[0x3000_0000], &[0xd000_0004]),
            // 7 is sent to cell 1, twice, and 0 to cell 2
            (&[0x5001_0007], &[0xc000_0000]),
            (&[0x5001_0007], &[0xd000_0006]),
            (&[0x5002_0000], &[0xd000_0007]),
            // delays of 0 ticks and of one, and a tick
            (&[0x7000_0000], &[0xd000_000f]),
            (&[0x7000_0001], &[0xd000_000f]),
            (&[0xa000_0000], &[0xd000_000f]),
            // reads of a byte from unit 4, and of 0 and 81 bytes from unit 0
            (&[0x8204_0001], &[0xd000_0009]),
            (&[0x8200_0000], &[0xd000_000a]),
            (&[0x8200_0051], &[0xd000_000a]),
            // a write line of a text that has no line end
            (&[0x8101_0002, 0x0041_4200], &[0xd000_000b]),
            // services of unit 4, and of unit 0, which has no request
            (&[0x9004_0000], &[0xd000_0009]),
            (&[0x9000_0000], &[0xd000_000c]),
            // a kill, and one where no task runs
            (&[0x2000_0000], &[0xc0ff_0000]),
            (&[0x2000_0000], &[0xd0ff_0001]),
        ];
        answered(&rt, &mut cabinet, &calls)
    }

    // The refusals that want several tasks, and a delay of 0 where there is a clock.
    #[test]
    fn refused_to_several(rt: HostRuntime) -> Result<(), Fail> {
        let mut cabinet = without_tape(rt.alloc(), 4, 2)?;
        let calls: [(&[u32], &[u32]); 7] = [
            // creates of id 5, of id 6, and of id 6 again
            (&[0x1005_0a00, 0x0000_0000, 0x0000_0000], &[0xc000_0001]),
            (&[0x1006_0a00, 0x0000_0000, 0x0000_0000], &[0xc000_0002]),
            (&[0x1006_0a00, 0x0000_0000, 0x0000_0000], &[0xd000_0003]),
            (&[0x7000_0000], &[0xd000_0008]),
            // record 0 waits at cell 3, record 1 writes a byte on unit 1, and record 2 kills id 5, which is record 1's
            (&[0x6003_0000], &[0xc001_0000]),
            (&[0x8001_0001, 0x0041_0000], &[0xc002_0000]),
            (&[0x3000_0500], &[0xd002_0005]),
        ];
        answered(&rt, &mut cabinet, &calls)
    }

    // Words that begin no call stop the run behind an answered tick, and the tick behind them is not made; so do odd bytes at the end.
    #[test]
    fn unlawful(rt: HostRuntime) -> Result<(), Fail> {
        let heap = rt.alloc();
        let mut cabinet = without_tape(heap, 4, 1)?;
        let table: [&[u32]; 14] = [
            // a data word astray, and kinds that are never calls
            &[0x0000_0000],
            &[0x4000_0000],
            &[0xc000_0000],
            &[0xd000_0000],
            &[0xe000_0000],
            &[0xf000_0000],
            // sub-kinds that there are not: of own calls, of calls by id, and of a tick, which has none
            &[0x2300_0000],
            &[0x3500_0100],
            &[0xa100_0000],
            // bits that a kill and a wait do not name
            &[0x2000_0001],
            &[0x6001_0001],
            // a data word that is missing; a start address above 16 bits; an unfilled byte that is not zero
            &[0x1005_0a00, 0x0000_0200],
            &[0x1005_0a00, 0x0001_0000, 0x0000_0000],
            &[0x8101_0001, 0x0041_4200],
        ];
        for words in table {
            let mut bytes = bytes_of(heap, &[0xa000_0000])?;
            bytes.extend_from_slice(&bytes_of(heap, words)?)?;
            bytes.extend_from_slice(&bytes_of(heap, &[0xa000_0000])?)?;
            runs(
                &rt,
                &mut cabinet,
                &bytes,
                256,
                &[0xc000_0000],
                1,
                Stop::Unlawful { place: 1 },
            )?;
        }
        let mut bytes = bytes_of(heap, &[0xa000_0000, 0xa000_0000])?;
        for odd in [0xa0, 0x00, 0x00] {
            bytes.push(odd)?;
            runs(
                &rt,
                &mut cabinet,
                &bytes,
                256,
                &[0xc000_0000, 0xc000_0000],
                2,
                Stop::Unlawful { place: 2 },
            )?;
        }
        // the clock has gone up by each tick that was made, and by no other: 14 times one, and three times two
        assert_eq!(rt; cabinet.clock(), 20);
        Ok(())
    }

    // Answers that just fit, and answers with one byte or word too little; the call of an answer that does not fit is not made.
    #[test]
    fn no_room(rt: HostRuntime) -> Result<(), Fail> {
        let heap = rt.alloc();
        let mut cabinet = without_tape(heap, 4, 1)?;
        let bytes = bytes_of(heap, &[0xa000_0000, 0xa000_0000])?;
        let answer = 0xc000_0000;
        runs(
            &rt,
            &mut cabinet,
            &bytes,
            8,
            &[answer, answer],
            2,
            Stop::End,
        )?;
        runs(&rt, &mut cabinet, &bytes, 7, &[answer], 1, Stop::NoRoom)?;
        runs(&rt, &mut cabinet, &bytes, 4, &[answer], 1, Stop::NoRoom)?;
        runs(&rt, &mut cabinet, &bytes, 0, &[], 0, Stop::NoRoom)?;
        assert_eq!(rt; cabinet.clock(), 4);
        // unlawful words are found before room is looked for
        let unlawful = bytes_of(heap, &[0xa000_0000, 0x4000_0000])?;
        runs(
            &rt,
            &mut cabinet,
            &unlawful,
            4,
            &[answer],
            1,
            Stop::Unlawful { place: 1 },
        )
    }

    // The outcome of a read needs room for its text too.
    #[test]
    fn no_room_for_text(rt: HostRuntime) -> Result<(), Fail> {
        let heap = rt.alloc();
        let mut cabinet = start(heap, 1, 0, vec![in heap; 0x41, 0x42]?)?;
        let read = bytes_of(heap, &[0x8200_0002, 0x9000_0000, 0x9000_0000])?;
        runs(
            &rt,
            &mut cabinet,
            &read,
            12,
            &[0xc0ff_0000, 0xc0ff_0000, 0xc000_0001],
            3,
            Stop::End,
        )?;
        let look = bytes_of(heap, &[0xb200_0000])?;
        runs(&rt, &mut cabinet, &look, 7, &[], 0, Stop::NoRoom)?;
        runs(
            &rt,
            &mut cabinet,
            &look,
            8,
            &[0xc000_2502, 0x0041_4200],
            1,
            Stop::End,
        )
    }

    // A draft takes 1 to 64 tasks and rates 0 to 4; without a clock there is no tick.
    #[test]
    fn drafts(rt: HostRuntime) -> Result<(), Fail> {
        let heap = rt.alloc();
        for tasks in [1, 64] {
            assert_eq!(rt; without_tape(heap, tasks, 1)?.tasks(), usize::from(tasks));
        }
        for (tasks, rate) in [(0, 1), (65, 1), (1, 5)] {
            let refused = without_tape(heap, tasks, rate).err();
            assert_eq!(rt; refused, Some(NotStarted::Refused(Refusal::OutOfRange)));
        }
        for (rate, answer) in [
            (0, 0xd000_000f),
            (1, 0xc000_0000),
            (2, 0xc000_0000),
            (3, 0xc000_0000),
            (4, 0xc000_0000),
        ] {
            let mut cabinet = without_tape(heap, 1, rate)?;
            answered(&rt, &mut cabinet, &[(&[0xa000_0000], &[answer])])?;
        }
        Ok(())
    }
}
