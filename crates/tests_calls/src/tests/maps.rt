//! Maps through their trait, and failed allocations.

ghost use Rattle.std.specs.{Prelude.{◌≡◌, ℕ, ◌<◌, ◌≤◌, ◌∷◌, [], length, map, IfOk}, List.{All}};
ghost use Rattle.array_maps.specs.{Accesses.{words_after_all}, Store.{Effects}};
ghost use Rattle.tests_calls.specs.Added.{addition};

use crate::tests::asserts::assert_same;
use array_maps::{Maps, MapsError, Op, Store};
use std::alloc::Global;
use std::test::Fail;

/// The values of maps of 1 and 2 elements.
fn values_of(maps: &Maps) -> [u64; 3]
    requires { maps.now.sizes ≡ 1 ∷ 2 ∷ [] }
{
    [maps.get(0, 0), maps.get(1, 0), maps.get(1, 1)]
}

/// Maps of 1 and 2 elements, by a second try if an allocation failed.
fn made(alloc: Global) -> Result<Maps, MapsError>
    ensures { IfOk result (λ maps. maps.sizes ≡ 1 ∷ 2 ∷ []) }
{
    match Maps::new(alloc, &[1, 2]) {
        Err(MapsError::Memory) => Maps::new(alloc, &[1, 2]),
        made => made,
    }
}

// If a copy's allocation failed, the maps are as before.
#[test]
fn a_refused_allocation_changes_nothing(rt: HostRuntime) -> Result<(), Fail> {
    let mut maps = made(rt.alloc())?;
    maps.set(1, 1, 7);
    if let Ok(copy) = maps.try_copy(rt.alloc()) {
        assert_same(&rt, values_of(&copy), [0, 0, 7]);
    }
    assert_same(&rt, values_of(&maps), [0, 0, 7]);
    Ok(())
}

/// Adds an operand to each of some elements. The contracts of one call carry a whole run: the store
/// afterwards is the store before, changed by the accesses in order.
fn add_to_each<S: Store>(store: &mut S, elements: &[u32], operand: u64)
    requires within { All (λ e. e < length (S.words store.old)) elements.now }
    requires served { length elements.now ≤ S.serves store.old }
    ensures done { Effects S.effect store.old (map (addition operand) elements.now) store.new }
    ensures words { S.words store.new ≡ words_after_all (map (addition operand) elements.now) (S.words store.old) }
{
    for e in elements {
        store.update(*e, Op::Add, operand);
    }
}

#[test]
fn a_run_goes_through_the_trait(rt: HostRuntime) -> Result<(), Fail> {
    let mut maps = Maps::new(rt.alloc(), &[2, 1])?;
    add_to_each(&mut maps, &[2, 0, 2], 18_446_744_073_709_551_615);
    assert_same(
        &rt,
        (maps.get(0, 0), maps.get(0, 1), maps.get(1, 0)),
        (18_446_744_073_709_551_615, 0, 18_446_744_073_709_551_614),
    );
    Ok(())
}
