//! Callers, their keys, and their requests in a keeper.
use crate::storing::apply;
use point_list::{Items, Text};
use poll_book::{
    Body, Caller, Change, Keeper, Key, MemKeeper, OrderState, Outcome, RequestRow, SettingRow,
    StoreFault, VoidRow, Words,
};
use std::alloc::Global;
use std::test::Fail;
use telling::{Trial, twice};

fn named(caller: &str, key: &str) -> Result<(Caller, Key), StoreFault> {
    match (Caller::new(caller), Key::new(key)) {
        (Some(caller), Some(key)) => Ok((caller, key)),
        _ => Err(StoreFault::Other),
    }
}

fn text(alloc: Global, name: &str) -> Result<Text, StoreFault> {
    Ok(Text::from_string(name.to_string(alloc)?))
}

/// A list of three bytes, an order or a void.
fn body_of(alloc: Global, outcome: Outcome) -> Result<Body, StoreFault> {
    Ok(match outcome {
        Outcome::Ordered(_) => Body::Order {
            point: text(alloc, "limit")?,
            value: 7,
        },
        Outcome::Voided(slot) => Body::Void {
            point: text(alloc, "energy")?,
            slot,
        },
        _ => Body::List(Items::from_vec(vec![in alloc; 1, 2, 3]?)),
    })
}

/// Puts a request of this outcome, and the order or the void that it may be.
fn ask(
    alloc: Global,
    keeper: &mut MemKeeper,
    (caller, key): (Caller, Key),
    outcome: Outcome,
) -> Result<(), StoreFault> {
    let body = body_of(alloc, outcome)?;
    let mut change = Change::none(alloc);
    change.request = Some(RequestRow {
        caller,
        key,
        body,
        outcome,
    });
    match outcome {
        Outcome::Ordered(number) => {
            change.setting = Some(SettingRow {
                number,
                point: 1,
                words: Words::new(alloc, &[1, 2, 3, 4, 5])?,
                state: OrderState::Waiting,
            });
        }
        Outcome::Voided(slot) => change.void = Some(VoidRow { point: 1, slot }),
        _ => {}
    }
    apply(keeper, &change)
}

/// What became of a request.
fn outcome_of(
    alloc: Global,
    keeper: &mut MemKeeper,
    caller: &str,
    key: &str,
) -> Result<Option<Outcome>, StoreFault> {
    let (caller, key) = named(caller, key)?;
    let request = keeper.request(alloc, &caller, &key)?;
    Ok(request.map(|request| request.outcome))
}

fn keys(trial: &Trial<'_>) -> Result<(), StoreFault> {
    use Outcome::*;
    let mut keeper = MemKeeper::new(trial.alloc());
    ask(trial.alloc(), &mut keeper, named("ems", "k1")?, Loaded(3))?;
    ask(trial.alloc(), &mut keeper, named("desk", "k1")?, Ordered(1))?;
    ask(trial.alloc(), &mut keeper, named("desk", "k2")?, Voided(9))?;
    for (caller, key, outcome) in [
        ("ems", "k1", Some(Loaded(3))),
        ("desk", "k2", Some(Voided(9))),
        ("desk", "k1", Some(Ordered(1))),
        ("ems", "k2", None),
        ("k1", "ems", None),
    ] {
        let told = outcome_of(trial.alloc(), &mut keeper, caller, key)?;
        trial.told(&(caller, key), &told, &outcome);
    }
    Ok(())
}

#[test]
fn keys_are_of_their_callers(rt: HostRuntime) -> Result<(), Fail> {
    Ok(twice!(rt, keys)?)
}

/// Expects how many orders there are and how many voids, and what became of a request.
fn is_kept(
    trial: &Trial<'_>,
    keeper: &mut MemKeeper,
    key: &str,
    (orders, voids): (u32, u64),
    outcome: Option<Outcome>,
) -> Result<(), StoreFault> {
    let told = (
        keeper.orders()?,
        keeper.voids()?,
        outcome_of(trial.alloc(), keeper, "ems", key)?,
    );
    trial.told(&key, &told, &(orders, voids, outcome));
    Ok(())
}

/// Puts a request, once more where it was refused: then there is neither it nor its order or void.
fn ask_again(
    trial: &Trial<'_>,
    keeper: &mut MemKeeper,
    key: &str,
    outcome: Outcome,
) -> Result<(), StoreFault> {
    let asked = named("ems", key)?;
    let (orders, voids) = (keeper.orders()?, keeper.voids()?);
    if let Err(fault) = ask(trial.alloc(), keeper, asked, outcome) {
        trial.told(&key, &fault, &StoreFault::Memory);
        is_kept(trial, keeper, key, (orders, voids), None)?;
        ask(trial.alloc(), keeper, asked, outcome)?;
    }
    Ok(())
}

/// Orders and voids, of which one slot comes twice, with how many there are then.
const REQUESTS: &[(&str, Outcome, u32, u64)] = &[
    ("a", Outcome::Ordered(1), 1, 0),
    ("b", Outcome::Voided(7), 1, 1),
    ("c", Outcome::Ordered(2), 2, 1),
    ("d", Outcome::Voided(3), 2, 2),
    ("e", Outcome::Voided(7), 2, 2),
    ("f", Outcome::Ordered(3), 3, 2),
];

fn refusals(trial: &Trial<'_>) -> Result<(), StoreFault> {
    let mut keeper = MemKeeper::new(trial.alloc());
    for (key, outcome, orders, voids) in REQUESTS {
        ask_again(trial, &mut keeper, key, *outcome)?;
        let after = (*orders, *voids);
        is_kept(trial, &mut keeper, key, after, Some(*outcome))?;
    }
    Ok(())
}

/// Run under `rt try --test --fail-alloc N`, this one sees each growth refused in turn.
#[test]
fn a_refusal_leaves_neither_order_nor_void_nor_request(rt: HostRuntime) -> Result<(), Fail> {
    Ok(twice!(rt, refusals)?)
}
