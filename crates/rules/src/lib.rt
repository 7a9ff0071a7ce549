// The rules of the monitor and the laws of its runs. The rules are definitions in specs/; each function here names
// one law in its contract, which is proved of these definitions. What the monitor promises cites the same definitions.
#![tactic(auto)]

ghost use Rattle.rules.specs.Laws.{
  CellLaws,
  Deadlines,
  FrontsToo,
  Laws,
  OfEveryRun,
  ReadyPlaces,
  RefusedChangeNothing,
  RunningRanksFirst,
  Soundness,
  UnitLaws,
};
ghost use Rattle.rules.specs.Trials.{
  AllReceiversWake,
  BehindEquals,
  FreedIdIsGone,
  LineRead,
  ReadyEndsNoWait,
  ReleasedBeforeCaller,
  Trials,
};
ghost use Rattle.unit.specs.Medium.{Medium};
ghost use Rattle.std.specs.Prelude.{List};

// Every record is at exactly one place; marks are as they may be; chains are sorted; and what else holds of every state.
pub fn soundness_law()
    ensures { OfEveryRun Soundness }
{}

// No ready task ranks above the running one, and none is ready if none runs.
pub fn running_first_law()
    ensures { OfEveryRun RunningRanksFirst }
{}

// Of each ready task since its last linking: tasks ahead then + linked above it since = choosings since + taken out ahead of
// it since + tasks ahead now.
pub fn ready_places_law()
    ensures { OfEveryRun ReadyPlaces }
{}

// A wait at a unit is over at the latest with as many granted services as bytes were owed there when its task had asked.
pub fn deadlines_law()
    ensures { OfEveryRun Deadlines }
{}

// Taken grew by exactly the bytes that writes moved, and given by exactly those that reads moved, in the order of asking.
pub fn unit_bytes_law()
    ensures { OfEveryRun UnitLaws }
{}

// At each cell: sends granted = sends handed to waiters + sends taken by a later wait + 1 if it is full. No receiver waits at a
// full cell and no sender at an empty one.
pub fn cell_messages_law()
    ensures { OfEveryRun CellLaws }
{}

// A refused call changes nothing at all.
pub fn refused_law()
    ensures { OfEveryRun RefusedChangeNothing }
{}

// All of these laws, of every run, and of every run that goes on at each of its steps.
pub fn all_laws()
    ensures laws { OfEveryRun Laws }
    ensures fronts { FrontsToo }
{}

// The trial runs, over any units.
pub fn trial_runs()
    ensures { (us : List Medium) → Trials us }
{}

// A run that reads a line from a tape, over any further units.
pub fn line_read_run()
    ensures { (us : List Medium) → LineRead us }
{}

// Readings of the rules that are wrong: linking a task before its equals; finding an id left in a freed record; waking one
// receiver only; linking the caller before those it released; ending a wait by ready. Each is shut out by a run.
pub fn wrong_readings()
    ensures before_equals { (us : List Medium) → BehindEquals us }
    ensures freed_id { (us : List Medium) → FreedIdIsGone us }
    ensures one_receiver { (us : List Medium) → AllReceiversWake us }
    ensures caller_first { (us : List Medium) → ReleasedBeforeCaller us }
    ensures ready_ends_wait { (us : List Medium) → ReadyEndsNoWait us }
{}
