// The queues of the four units, as one thing: each call goes to the queue of the unit that it names.

ghost use Rattle.queues.specs.Even.{Even};

use crate::Queue;

#[derive(Drop)]
pub struct Queues {
    pub(crate) at: [Queue; 4],
    // each has place for the same tasks
    ghost even: { Even at },
}
