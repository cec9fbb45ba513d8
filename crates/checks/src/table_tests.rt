// The record table over no slot, over one, over as many as wanted and under a limit.
use table::{Full, Table};

#[test]
fn a_table_takes_what_it_has_room_for(rt: HostRuntime) {
    let mut none: [u8; 0] = [];
    let mut t = Table::new(&mut none, 8);
    assert_eq!(rt; t.push(7), Err(Full));
    assert_eq!(rt; t.len(), 0);
    let mut one = [0u8; 1];
    let mut t = Table::new(&mut one, 8);
    assert_eq!(rt; t.push(7), Ok(0));
    assert_eq!(rt; t.push(8), Err(Full));
    assert_eq!(rt; t.get(0), Some(7));
    assert_eq!(rt; t.get(1), None);
    let mut four = [9u8; 4];
    let mut t = Table::new(&mut four, 2);
    assert_eq!(rt; t.push(1), Ok(0));
    assert_eq!(rt; t.push(2), Ok(1));
    assert_eq!(rt; t.push(3), Err(Full));
    assert_eq!(rt; t.len(), 2);
}

#[test]
fn slots_behind_the_records_stay(rt: HostRuntime) {
    let mut slots = [9u8; 4];
    let mut t = Table::new(&mut slots, 4);
    assert_eq!(rt; t.push(1), Ok(0));
    assert_eq!(rt; t.push(2), Ok(1));
    assert_eq!(rt; t.len(), 2);
    assert_eq!(rt; slots, [1, 2, 9, 9]);
}
