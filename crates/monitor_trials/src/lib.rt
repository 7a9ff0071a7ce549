// Trials of the monitor: starts of one and of 64 tasks, and calls that are refused.
#![tactic(auto)]

#[cfg(test)]
mod tests {
    use cabinet::{Cabinet, NotStarted, start};
    use calls::Refusal;
    use generation::Draft;
    use monitor::Place;
    use std::alloc::Global;
    use std::test::Fail;

    // A monitor for so many tasks, over units with nothing to give.
    fn started(heap: Global, tasks: u8, rate: u8) -> Result<Cabinet, NotStarted> {
        start(heap, tasks, rate, Vec::new(heap))
    }

    #[test]
    fn one_task(rt: HostRuntime) -> Result<(), Fail> {
        let mut monitor = started(rt.alloc(), 1, 1)?;
        assert_eq!(rt; monitor.tasks(), 1);
        assert_eq!(rt; monitor.running(), Some(0));
        assert_eq!(rt; monitor.create(5, 1, 0, 0), Err(Refusal::NoFreeRecord));
        assert_eq!(rt; monitor.kill(), Ok(0));
        assert_eq!(rt; monitor.running(), None);
        assert_eq!(rt; monitor.kill(), Err(Refusal::NoTask));
        Ok(())
    }

    #[test]
    fn sixty_four_tasks(rt: HostRuntime) -> Result<(), Fail> {
        let mut monitor = started(rt.alloc(), 64, 1)?;
        assert_eq!(rt; monitor.tasks(), 64);
        assert_eq!(rt; monitor.place(63), Some(Place::Free));
        assert_eq!(rt; monitor.place(64), None);
        for id in 1..64u8 {
            assert_eq!(rt; monitor.create(id, 255, 0, 0), Ok(u16::from(id)));
        }
        assert_eq!(rt; monitor.place(63), Some(Place::Ready));
        assert_eq!(rt; monitor.create(64, 255, 0, 0), Err(Refusal::NoFreeRecord));
        Ok(())
    }

    #[test]
    fn calls_refused(rt: HostRuntime) -> Result<(), Fail> {
        let mut monitor = started(rt.alloc(), 4, 1)?;
        assert_eq!(rt; monitor.create(5, 10, 0, 0), Ok(1));
        assert_eq!(rt; monitor.create(5, 10, 0, 0), Err(Refusal::IdInUse));
        assert_eq!(rt; monitor.kill_id(9), Err(Refusal::NoSuchId));
        assert_eq!(rt; monitor.send(1, 0, false), Err(Refusal::NoMessage));
        assert_eq!(rt; monitor.send(255, 7, false), Ok(0));
        assert_eq!(rt; monitor.send(255, 7, false), Err(Refusal::CellFull));
        assert_eq!(rt; monitor.delay(0), Err(Refusal::NoTicks));
        Ok(())
    }

    #[test]
    fn transfers_refused(rt: HostRuntime) -> Result<(), Fail> {
        let mut monitor = started(rt.alloc(), 4, 0)?;
        assert_eq!(rt; monitor.read(4, 1), Err(Refusal::NoSuchUnit));
        assert_eq!(rt; monitor.read(0, 81), Err(Refusal::BadLength));
        assert_eq!(rt; monitor.write_line(3, b"AB"), Err(Refusal::NoLineEnd));
        assert_eq!(rt; monitor.service(0), Err(Refusal::NoRequest));
        assert_eq!(rt; monitor.tick(), Err(Refusal::NoClock));
        assert_eq!(rt; monitor.create(5, 10, 0, 0), Ok(1));
        assert_eq!(rt; monitor.write(1, b"A"), Ok(0));
        assert_eq!(rt; monitor.running(), Some(1));
        assert_eq!(rt; monitor.create(6, 10, 0, 0), Ok(2));
        assert_eq!(rt; monitor.service(1), Ok(1));
        assert_eq!(rt; monitor.running(), Some(0));
        Ok(())
    }

    #[test]
    fn killed_at_a_unit(rt: HostRuntime) -> Result<(), Fail> {
        let mut monitor = started(rt.alloc(), 4, 0)?;
        assert_eq!(rt; monitor.create(5, 10, 0, 0), Ok(1));
        assert_eq!(rt; monitor.write(1, b"A"), Ok(0));
        assert_eq!(rt; monitor.create(6, 10, 0, 0), Ok(2));
        assert_eq!(rt; monitor.write(1, b"B"), Ok(0));
        assert_eq!(rt; monitor.running(), Some(2));
        assert_eq!(rt; monitor.kill_id(5), Err(Refusal::AtUnit));
        assert_eq!(rt; monitor.status_id(5), Ok(1));
        Ok(())
    }

    // Each of the 256 cells holds a message of its own.
    #[test]
    fn every_cell(rt: HostRuntime) -> Result<(), Fail> {
        let mut monitor = started(rt.alloc(), 1, 1)?;
        for n in 0..256u16 {
            assert_eq!(rt; monitor.send((n % 256) as u8, n + 1, false), Ok(0));
        }
        for n in 0..256u16 {
            assert_eq!(rt; monitor.cell((n % 256) as u8), n + 1);
        }
        Ok(())
    }

    // All of 64 tasks wait at one unit, and each has its byte punched.
    #[test]
    fn queue_of_sixty_four(rt: HostRuntime) -> Result<(), Fail> {
        let mut monitor = started(rt.alloc(), 64, 0)?;
        for id in 1..64u8 {
            assert_eq!(rt; monitor.create(id, 255, 0, 0), Ok(u16::from(id)));
        }
        for _ in 0..64 {
            assert_eq!(rt; monitor.write(1, b"A"), Ok(0));
        }
        assert_eq!(rt; monitor.running(), None);
        for _ in 0..64 {
            assert_eq!(rt; monitor.service(1), Ok(1));
        }
        assert_eq!(rt; monitor.service(1), Err(Refusal::NoRequest));
        assert_eq!(rt; monitor.units().unit_1.taken().len(), 64);
        Ok(())
    }

    #[test]
    fn answers_out_of_range(rt: HostRuntime) {
        let mut draft = Draft::new();
        assert_eq!(rt; draft.answer_tasks(0), Err(Refusal::OutOfRange));
        assert_eq!(rt; draft.answer_tasks(65), Err(Refusal::OutOfRange));
        assert_eq!(rt; draft.answer_rate(5), Err(Refusal::OutOfRange));
    }
}
