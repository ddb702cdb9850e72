//! Worked examples.
use bounded::Bounded;
use std::test::Fail;

#[test]
fn an_entry_is_replaced_where_there_is_one(rt: HostRuntime) -> Result<(), Fail> {
    let mut places = [7, 8, 9];
    let mut list = Bounded::new(&mut places);
    assert_eq!(rt; list.replace(0, 1), Err(1));
    assert_eq!(rt; list.push(1), Ok(()));
    assert_eq!(rt; list.push(2), Ok(()));
    assert_eq!(rt; list.replace(1, 5), Ok(()));
    assert_eq!(rt; list.replace(2, 6), Err(6));
    assert_eq!(rt; list.len(), 2);
    assert_eq!(rt; places, [1, 5, 9]);
    Ok(())
}
