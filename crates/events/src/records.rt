// The list that is filled with the records that a log's numbers say.
ghost use Rattle.std.specs.Prelude.{◌≡◌, ◌++◌, ◌≤◌, length, drop};
ghost use Rattle.events.specs.Receive.{records_of};

use event::EventRecord;

// The records of the first n numbers of the log; those behind them stay.
pub fn fill(events: &mut [EventRecord], log: &[u64], n: usize)
    requires { (n ≤ length events.old) × (n ≤ length log.now) }
    ensures { events.new ≡ records_of n log.now ++ drop n events.old }
{
    for i in 0..n {
        events[i] = event::record_of(log[i]);
    }
}
