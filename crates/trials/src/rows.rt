use crate::sight::Sight;
use std::test::Fail;
use table::{Record, Table};

fn sight(what: u8, when: u32) -> Sight {
    Sight { what, when }
}

// The first same row is found, whatever its stamp; a full table gives the record back and keeps its rows.
#[test]
fn first_same_row(rt: HostRuntime) -> Result<(), Fail> {
    let mut rows = [sight(9, 90), sight(9, 91), sight(9, 92)];
    let mut table = Table::over(&mut rows);
    assert!(rt;
        table.find(&sight(9, 0)).is_none(),
        "rows not taken are not searched"
    );
    assert!(rt; table.add(sight(1, 10)).is_ok());
    assert!(rt; table.add(sight(2, 11)).is_ok());
    assert_eq!(rt; table.len(), 2);
    assert_eq!(rt; table.find(&sight(2, 0)), Some(1));
    assert_eq!(rt; table.find(&sight(1, 99)), Some(0));
    assert!(rt; table.find(&sight(9, 92)).is_none());
    assert!(rt; table.row(2).is_none());
    assert!(rt; table.add(sight(1, 12)).is_ok());
    assert_eq!(rt; table.find(&sight(1, 0)), Some(0));
    let Err(back) = table.add(sight(7, 13)) else {
        return Err(Fail::new("a full table took a row"));
    };
    assert_eq!(rt; back.what, 7);
    let Some(row) = table.row(2) else {
        return Err(Fail::new("no row 2"));
    };
    assert_eq!(rt; row.stamp(), 12);
    Ok(())
}
