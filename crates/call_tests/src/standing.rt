// A standing that is filled out of order.

use circuit_model::Cell;
use standing_view::Standing;
use std::test::Fail;

#[test]
fn measurements_stand_in_order_of_cells(rt: HostRuntime) -> Result<(), Fail> {
    let mut standing = Standing::open(rt.alloc())?;
    standing.add_part(5);
    standing.restore(9, Cell { net: 2, cycle: 0 });
    standing.restore(3, Cell { net: 0, cycle: 1 });
    standing.add_part(0);
    standing.restore(7, Cell { net: 0, cycle: 0 });
    assert!(rt; standing.order() == [5, 0, 7, 3, 9].as_slice());
    assert!(rt; standing.part_slot(1) == 0 && standing.reading_slot(2) == 9);
    standing.drop_part();
    standing.park(9);
    assert!(rt; standing.order() == [5, 7, 3].as_slice());
    let mask = standing.mask();
    assert!(rt; mask.size() == 3 && mask.has(3) && mask.has(5) && mask.has(7));
    Ok(())
}
