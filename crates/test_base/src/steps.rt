//! Counts of steps, as a caller lends them to a call whose contract says how much it does.
ghost use Rattle.std.specs.Prelude.{◌≡◌, ◌+◌, length};

use hir_base::Steps;
use std::mem::{drop, size_of};

// One step, and one more for each item.
fn count_items(items: &[u8], steps: &mut Steps)
    ensures { steps.new ≡ steps.old + 1 + length items.now }
{
    steps.tick();
    for _item in items {
        steps.tick();
    }
}

// The count of three items, from none.
fn count_three() -> Steps
    ensures { result ≡ 4 }
{
    let mut steps = Steps::new();
    count_items(&[7, 8, 9], &mut steps);
    steps
}

// The number is in the contract above. At run time there is nothing to see of it.
#[test]
fn a_count_of_steps_takes_no_bytes(rt: HostRuntime) {
    drop(count_three());
    assert!(rt; size_of::<Steps>() == 0);
}
