use crate::runs::clocks_of;
use crate::tests::GRADE;
use cells::Words;
use device::CellDevice;
use driver::Refusal;
use sheet::Sheet;
use std::test::Fail;

#[test]
fn reads_in_time(rt: HostRuntime) -> Result<(), Fail> {
    let mut memory = vec![in rt.alloc(); 0u32; 2048]?;
    for (address, word) in memory.iter_mut().enumerate() {
        *word = address as u32;
    }
    let Ok(sheet) = Sheet::admit(GRADE) else {
        return Err(Fail::new("no sheet"));
    };
    let mut device: CellDevice<'_, Words> = CellDevice::new(&mut memory, sheet);
    let mut buffer = [0u32; 8];
    let clocks = clocks_of(&mut device, &mut buffer);
    assert_eq!(rt; clocks.wait, Ok(100), "a wait");
    assert_eq!(rt; clocks.from_idle, Ok(14), "from an idle bank");
    assert_eq!(rt; clocks.in_open, Ok(11), "in the open row");
    assert_eq!(rt; clocks.from_other, Ok(17), "another row of the bank");
    assert_eq!(rt; clocks.over_banks, Ok(23), "over the banks' boundary");
    assert_eq!(rt; clocks.past, Err(Refusal::Address));
    assert_eq!(rt; clocks.long, Err(Refusal::Length));
    assert_eq!(rt; buffer[0], 1020);
    assert_eq!(rt; buffer[7], 1027);
    Ok(())
}
