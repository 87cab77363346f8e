//! Runs of a table.

ghost use Rattle.std.specs.Prelude.{◌≡◌, ◌≤◌, ◌-◌, true, false, filter, length, take, drop};
ghost use Rattle.std.specs.Fn.{ComputesKey};
ghost use Rattle.std.specs.List.Sorted.{IsPartitionedBy, IsPartitionPoint};
ghost use Rattle.std.specs.Ordering.{is_lt, is_eq};
ghost use Rattle.std.specs.declared.cmp.Ordering.{Ordering};
ghost use Rattle.scip_query.specs.Tables.Runs.{Rises};

use std::cmp::Ordering;

/// So many are looked at before all: most runs are short.
const FEW: usize = 8;

/// The first few of a run.
fn few_of<N>(run: &[N]) -> &[N]
    ensures { result.now ≡ take 8 run.now }
{
    run.split_at(FEW.min(run.len())).0
}

/// How many compare as equal, if these come before all others.
fn equal_len<N, F: Fn(&N) -> Ordering>(run: &[N], compare: F) -> usize
    requires { F.IsAlwaysCallable compare }
    ensures bound { result ≤ length run.now }
    ensures parted { (to : N → Ordering) → ComputesKey F.FnMut to compare → IsPartitionedBy (λ n. is_eq (to n)) run.now
        → IsPartitionPoint (λ n. is_eq (to n) ≡ true) (λ n. is_eq (to n) ≡ false) run.now result }
{
    let near = few_of(run).partition_point(
        |n: &N| -> bool
            requires { F.IsAlwaysCallable compare }
            ensures { (to : N → Ordering) → ComputesKey F.FnMut to compare → result ≡ is_eq (to n.now) }
        { compare(n).is_eq() },
    );
    if near < FEW {
        return near;
    }
    run.partition_point(
        |n: &N| -> bool
            requires { F.IsAlwaysCallable compare }
            ensures { (to : N → Ordering) → ComputesKey F.FnMut to compare → result ≡ is_eq (to n.now) }
        { compare(n).is_eq() },
    )
}

/// What compares as equal, in a table where first comes what compares as less, then what compares
/// as equal, and then what compares as greater. Binary searches find it.
pub(crate) fn run_of<N, F: Fn(&N) -> Ordering>(table: &[N], compare: F) -> &[N]
    requires { F.IsAlwaysCallable compare }
    ensures { (to : N → Ordering) → ComputesKey F.FnMut to compare → Rises to table.now → result.now
        ≡ filter (λ n. is_eq (to n)) table.now }
{
    let from = table.partition_point(
        |n: &N| -> bool
            requires { F.IsAlwaysCallable compare }
            ensures { (to : N → Ordering) → ComputesKey F.FnMut to compare → result ≡ is_lt (to n.now) }
        { compare(n).is_lt() },
    );
    let run = table.split_at(from).1;
    let len = equal_len(run, compare);
    run.split_at(len).0
}

/// The last of a list, if there is one.
fn last_of<N>(list: &[N]) -> &[N]
    ensures { result.now ≡ drop (length list.now - 1) list.now }
{
    list.split_at(list.len().saturating_sub(1)).1
}

/// As `run_of`. It is looked for first behind so many of the table; with it comes behind how many it is, if that is
/// near.
pub(crate) fn run_near<N, F: Fn(&N) -> Ordering>(
    table: &[N],
    near: usize,
    compare: F,
) -> (usize, &[N])
    requires { F.IsAlwaysCallable compare }
    ensures { (to : N → Ordering) → ComputesKey F.FnMut to compare → Rises to table.now → result.1.now
        ≡ filter (λ n. is_eq (to n)) table.now }
{
    let (front, back) = table.split_at(near.min(table.len()));
    let last = last_of(front);
    let less = last.partition_point(
        |n: &N| -> bool
            requires { F.IsAlwaysCallable compare }
            ensures { (to : N → Ordering) → ComputesKey F.FnMut to compare → result ≡ is_lt (to n.now) }
        { compare(n).is_lt() },
    );
    if less < last.len() {
        return (near, run_of(table, compare));
    }
    let from = few_of(back).partition_point(
        |n: &N| -> bool
            requires { F.IsAlwaysCallable compare }
            ensures { (to : N → Ordering) → ComputesKey F.FnMut to compare → result ≡ is_lt (to n.now) }
        { compare(n).is_lt() },
    );
    let found = near.saturating_add(from);
    if from == FEW {
        return (found, run_of(back, compare));
    }
    let run = back.split_at(from).1;
    let len = equal_len(run, compare);
    (found, run.split_at(len).0)
}
