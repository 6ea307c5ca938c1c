//! The slow numbers of clients.

ghost use Rattle.std.specs.Prelude.{◌≡◌, ◌≤◌, length, take};
ghost use Rattle.plan_transport.specs.Slowness.{slow_of};

use jack_types::Client;
use task_laws::cycle_plan::layout::MOST_CLIENTS;

/// The slow numbers of the clients, in their order; behind them zeros, which are none.
pub(crate) fn read_slow(clients: &[Client]) -> [u32; MOST_CLIENTS]
    requires { length clients.now ≤ 65 }
    ensures { take (length clients.now) result ≡ slow_of clients.now }
{
    let mut slow = [0; MOST_CLIENTS];
    for (index, client) in clients.iter().enumerate() {
        slow[index] = client.slow;
    }
    slow
}
