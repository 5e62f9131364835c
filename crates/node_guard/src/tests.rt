// Announcements picked and rows taken out, worked by hand and against lists that are searched in full.
ghost use Rattle.std.specs.Prelude.{◌≡◌, ◌<◌, ◌≤◌, length, IfOk};

use crate::{AnnStock, Retired};
use bq_model::{OutOfMemory, Shape};
use std::alloc::{AllocError, Global};
use std::process::Abort;
use std::test::Fail;

/// A shape for so many callers, with batches of four operations.
fn shape_of(callers: u32) -> Result<Shape, OutOfMemory>
    ensures callers { IfOk result (λ shape. shape.callers ≡ callers) }
    ensures batch { IfOk result (λ shape. shape.batch ≡ 4) }
{
    match Shape::new(callers, 4, 8, 100, 0) {
        Some(shape) => Ok(shape),
        None => Err(OutOfMemory),
    }
}

/// The list of a lane of two callers, with these rows put.
fn retired_of(alloc: Global, rows: &[u32]) -> Result<Retired, OutOfMemory>
    requires { length rows.now ≤ 7 }
    ensures { IfOk result (λ retired. retired.items ≡ rows.now) }
{
    let mut retired = Retired::new(alloc, &shape_of(2)?)?;
    for row in rows {
        retired.put(*row);
    }
    Ok(retired)
}

/// The rows that come out while these are held, until none does.
fn drained(alloc: Global, retired: &mut Retired, held: &[u32]) -> Result<Vec<u32>, AllocError> {
    let mut rows = Vec::new(alloc);
    for _once in 0..retired.len() {
        if let Some(row) = retired.take_unheld(held) {
            rows.push(row)?;
        }
    }
    Ok(rows)
}

/// The numbers whose bits are set, the first number's the lowest.
fn chosen(alloc: Global, numbers: &[u32], bits: u32) -> Result<Vec<u32>, AllocError> {
    let mut some = Vec::new(alloc);
    let mut left = bits;
    for number in numbers {
        if left % 2 == 1 {
            some.push(*number)?;
        }
        left /= 2;
    }
    Ok(some)
}

#[test]
fn second_caller_of_three_picks_the_one_that_is_left(rt: HostRuntime) -> Result<(), Fail> {
    let stock = AnnStock::new(&shape_of(3)?, 1);
    for (held, picked) in [
        ([3, 5], 4),
        ([5, 4], 3),
        ([3, 4], 5),
        ([4, 3], 5),
        ([0, 8], 3),
        ([3, 3], 4),
    ] {
        assert_eq!(rt; stock.pick(&held), picked);
    }
    assert_eq!(rt; stock.pick(&[3]), 4);
    assert_eq!(rt; stock.pick(&[]), 3);
    let alone = AnnStock::new(&shape_of(1)?, 0);
    assert_eq!(rt; alone.pick(&[]), 0);
    Ok(())
}

#[test]
fn rows_come_out_in_order_but_for_those_that_are_held(rt: HostRuntime) -> Result<(), Fail> {
    let mut worked = retired_of(rt.alloc(), &[7, 8])?;
    assert_eq!(rt; worked.take_unheld(&[7]), Some(8));
    assert_eq!(rt; worked.take_unheld(&[7]), None);
    let mut retired = retired_of(rt.alloc(), &[5, 9, 7])?;
    assert_eq!(rt; retired.first_unheld(&[5]), Some(9));
    assert_eq!(rt; retired.first_unheld(&[9, 5, 7]), None);
    assert_eq!(rt; retired.take_unheld(&[5]), Some(9));
    assert_eq!(rt; retired.len(), 2);
    assert_eq!(rt; retired.take_unheld(&[5, 7]), None);
    assert_eq!(rt; retired.len(), 2);
    assert_eq!(rt;
        drained(rt.alloc(), &mut retired, &[])?.as_slice(),
        [5, 7].as_slice()
    );
    assert_eq!(rt; retired.take_unheld(&[]), None);
    Ok(())
}

#[test]
fn full_list_gives_all_its_rows(rt: HostRuntime) -> Result<(), Fail> {
    let rows = [6, 1, 4, 2, 7, 3, 5];
    let mut retired = retired_of(rt.alloc(), &rows)?;
    assert_eq!(rt; retired.len(), 7);
    assert_eq!(rt;
        drained(rt.alloc(), &mut retired, &[])?.as_slice(),
        rows.as_slice()
    );
    Ok(())
}

/// The least of a caller's announcements that isn't held, looked for from the greatest one down.
fn least_left(own: &[u32], held: &[u32]) -> u32 {
    let mut least = 0;
    for ann in own.iter().rev() {
        if !held.contains(ann) {
            least = *ann;
        }
    }
    least
}

#[test]
fn each_choice_of_held_ones_is_met_as_a_search_of_all_meets_it(
    rt: HostRuntime,
) -> Result<(), Fail> {
    let own = [8, 9, 10, 11];
    let stock = AnnStock::new(&shape_of(4)?, 2);
    for bits in 0..15 {
        let held = chosen(rt.alloc(), &own, bits)?;
        assert!(rt; held.len() < 4);
        assert_eq!(rt;
            stock.pick(held.as_slice()),
            least_left(&own, held.as_slice()),
            "{bits}"
        );
    }
    let rows = [12, 10, 13, 11];
    for bits in 0..16 {
        let held = chosen(rt.alloc(), &rows, bits)?;
        let others = chosen(rt.alloc(), &rows, 15 - bits)?;
        let mut retired = retired_of(rt.alloc(), &rows)?;
        let free = drained(rt.alloc(), &mut retired, held.as_slice())?;
        assert_eq!(rt; free.as_slice(), others.as_slice(), "{bits}");
        let rest = drained(rt.alloc(), &mut retired, &[])?;
        assert_eq!(rt; rest.as_slice(), held.as_slice(), "{bits}");
    }
    Ok(())
}
