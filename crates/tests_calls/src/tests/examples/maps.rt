//! The examples at the heads of `array_maps`, `shadow_marks`, `lane_planes`, `private_copy` and `loop_board`.

ghost use Rattle.std.specs.Prelude.{◌≡◌, ◌<◌, IfOk};
ghost use Rattle.loop_core_model.specs.declared.loop_test.Test.TheVariants.{Flow};
ghost use Rattle.shadow_marks.specs.Standing.{ArePlanes, test_of, words_for};

use crate::tests::asserts::assert_same;
use array_maps::{Maps, Store};
use lane_planes::{conflicts, count_bits, first_bit, merge};
use loop_board::{Board, Tally};
use private_copy::Private;
use shadow_marks::{Access, IterFlags, Planes, Test};
use std::alloc::{AllocError, Global};
use std::test::Fail;

#[test]
fn maps_hold_values(rt: HostRuntime) -> Result<(), Fail> {
    let alloc = rt.alloc();
    let mut maps = Maps::new(alloc, &[2, 1])?;
    maps.set(1, 0, 8);
    let seen = maps.load(2);
    maps.store(0, 5);
    assert_same(&rt, seen, 8);
    assert_same(&rt, maps.get(0, 0), 5);
    assert_same(&rt, maps.sizes(), [2, 1].as_slice());
    Ok(())
}

/// Planes of one iteration that made one access of element 1, of two.
fn planes_of(alloc: Global, access: Access, index: u32) -> Result<Planes, AllocError>
    requires { index < 4294967295 }
    ensures whole { IfOk result ArePlanes }
    ensures elements { IfOk result (λ planes. planes.elements ≡ 2) }
    ensures words { IfOk result (λ planes. words_for planes.elements ≡ 1) }
    ensures test { IfOk result (λ planes. test_of planes.tested ≡ Flow) }
{
    let mut flags = IterFlags::try_new(alloc, 2)?;
    let mut planes = Planes::try_new(alloc, 2, Test::Flow)?;
    flags.mark(1, access);
    planes.end_iteration(&mut flags, index);
    Ok(planes)
}

#[test]
fn planes_tell_a_conflict(rt: HostRuntime) -> Result<(), Fail> {
    let alloc = rt.alloc();
    let mut planes = planes_of(alloc, Access::Write, 0)?;
    let other = planes_of(alloc, Access::Read, 1)?;
    merge::<8>(&mut planes, &other);
    let mut found = [0; 1];
    conflicts::<8>(&planes, &mut found);
    assert_eq!(rt; found, [2]);
    assert_eq!(rt; count_bits::<8>(&found), 1);
    assert_eq!(rt; first_bit::<8>(&found), Some(1));
    Ok(())
}

#[test]
fn an_iteration_sees_itself_alone(rt: HostRuntime) -> Result<(), Fail> {
    let alloc = rt.alloc();
    let maps = Maps::new(alloc, &[2])?;
    let mut copy = Private::try_new(alloc, &maps)?;
    let mut planes = Planes::try_new(alloc, 2, Test::Flow)?;
    copy.begin(alloc, 2)?;
    copy.store(1, 7);
    let seen = copy.load(1);
    copy.end(&mut planes, 0);
    copy.begin(alloc, 1)?;
    let next = copy.load(1);
    copy.end(&mut planes, 1);
    assert_eq!(rt; [seen, next], [7, 0]);
    assert_eq!(rt; copy.last_value(1), Some(7));
    assert_eq!(rt; copy.partial(1), None);
    Ok(())
}

#[test]
fn one_worker_empties_a_board(rt: HostRuntime) -> Result<(), Fail> {
    let (board, mut seats) = Board::new(rt.alloc(), 2, 1)?;
    assert!(rt; seats.len() == 1);
    let seat = &mut seats[0];
    let first = board.claim(seat);
    board.post(seat, 5);
    let least = board.look(seat);
    let second = board.claim(seat);
    let drained = board.claim(seat);
    let tally = board.gather(seats)?;
    assert_same(&rt, [first, second, drained], [Some(0), Some(1), None]);
    assert_same(&rt, least, 5);
    assert_same(
        &rt,
        tally,
        Tally {
            claimed: 2,
            least: 5,
        },
    );
    Ok(())
}
