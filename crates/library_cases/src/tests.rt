use records::Record;
use row::Row;
use std::test::Fail;

#[test]
fn a_long_row_is_filled(rt: HostRuntime) -> Result<(), Fail> {
    let mut row = Row::<u32, 65537>::new(7);
    assert_eq!(rt; row.len(), 0);
    assert_eq!(rt; row.last(), None);
    for i in 0..65537u32 {
        // A push asks for room.
        if !row.is_full() {
            row.push(i);
        }
    }
    assert!(rt; row.is_full());
    assert_eq!(rt; row.len(), 65537);
    assert_eq!(rt; row.pop(), Some(65536));
    assert!(rt; !row.is_full());
    row.reverse();
    assert_eq!(rt; row.last(), Some(0));
    assert_eq!(rt; row.as_slice()[0], 65535);
    let copy = row.clone()?;
    assert_eq!(rt; copy.len(), 65536);
    assert_eq!(rt; copy.as_slice()[65535], 0);
    Ok(())
}

#[test]
fn a_record_of_any_cells_is_whole(rt: HostRuntime) {
    let record = Record {
        used: 2,
        cells: ['a', 'b', 'c'],
    };
    record.whole();
    let cells: &[char] = &record.cells;
    assert_eq!(rt; cells.len(), 3);
}
