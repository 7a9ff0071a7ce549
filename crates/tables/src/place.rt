// Where a record is: every record is at exactly one place.

#[derive(Clone, Copy, PartialEq, Eq, Debug)]
pub enum Place {
    Free,
    Running,
    Ready,
    Suspended,
    // It waits at a cell: to receive while the cell is zero, to have its message taken while the cell is full.
    AtCell,
    // It waits for a due tick.
    Delayed,
    AtUnit,
}
