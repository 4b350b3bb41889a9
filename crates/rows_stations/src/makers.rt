//! Masks that are made without a file.
use elements::Decimal;
use station_file::MaskRow;
use std::test::Fail;

#[test]
fn a_flat_mask_has_four_sectors(rt: HostRuntime) -> Result<(), Fail> {
    let floor = Decimal::whole(10);
    if !floor.is_between(-90, 90) {
        assert!(rt; false, "10 is in range");
        return Ok(());
    }
    let mask = MaskRow::flat(rt.alloc(), floor)?;
    assert_eq!(rt; mask.len(), 4, "four sectors");
    assert_eq!(rt; mask.sector(3).border.digits(), 270, "the last border");
    assert_eq!(rt; mask.sector(3).floor.digits(), 10, "its elevation");
    Ok(())
}
