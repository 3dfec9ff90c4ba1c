// Two reports combined by hand. Both tables of flags start at number 32.
//
//     numbers      32..39   40..47   48..55   56..63   64..71   72..79
//     first row    FF       7E       DC       7F       FF       80        LSN 40, HSN 72
//     second row   FD       FE       DD       7F       FF       60        LSN 38, HSN 74
//     both         FD       7E       DC       7F       FF       00
//
// The first row holds 38 and 39, which lie below its low, and nothing above 72; the second lacks 38, 47, 50, 54, 56 and 72.
use rows::row::FromChild;
use rows::table::RowTable;
use std::alloc::Global;
use std::test::Fail;
use wire::Hack;

const FIRST: Hack = Hack {
    term: 1,
    serial: 1,
    lsn: 40,
    hsn: 72,
    flags: [0xff7e_dc7f, 0xff80_0000, 0, 0, 0, 0, 0, 0, 0],
};

const SECOND: Hack = Hack {
    term: 1,
    serial: 1,
    lsn: 38,
    hsn: 74,
    flags: [0xfdfe_dd7f, 0xff60_0000, 0, 0, 0, 0, 0, 0, 0],
};

// Children 7, 8 and 9, of which the first two joined from number 38 on and reported.
fn reported(heap: Global) -> Result<RowTable, Fail> {
    let mut table = RowTable::new(heap, &[7, 8, 9])?;
    for child in [7, 8] {
        let _ = table.take(child, true, 38, FromChild::JoinStream { term: 1 }, 0);
    }
    let _ = table.take(7, true, 38, FromChild::Hack(FIRST), 10);
    let _ = table.take(8, true, 38, FromChild::Hack(SECOND), 20);
    Ok(table)
}

#[test]
fn two_reports(rt: HostRuntime) -> Result<(), Fail> {
    let table = reported(rt.alloc())?;
    assert!(rt; table.any_live());
    assert_eq!(rt; table.lowest(), Some((1, 38)));
    assert_eq!(rt; table.highest(), 74);
    assert_eq!(rt;
        table.words(38),
        [0xfd7e_dc7f, 0xff00_0000, 0, 0, 0, 0, 0, 0, 0]
    );
    Ok(())
}

// The first child, heard at 10, stays at 5010 and goes at 5011; its flags then no longer count.
#[test]
fn silence(rt: HostRuntime) -> Result<(), Fail> {
    let mut table = reported(rt.alloc())?;
    table.tick(5000, 5010);
    assert_eq!(rt; table.word(1), 0xfd7e_dc7f);
    table.tick(5000, 5011);
    assert_eq!(rt; table.word(1), 0xfdfe_dd7f);
    table.tick(5000, 5021);
    assert_eq!(rt; table.lowest(), None);
    assert!(rt; !table.any_live());
    Ok(())
}

#[test]
fn none_left(rt: HostRuntime) -> Result<(), Fail> {
    let mut table = reported(rt.alloc())?;
    table.kill_all();
    assert!(rt; !table.any_live());
    assert_eq!(rt; table.lowest(), None);
    assert_eq!(rt; table.highest(), 0);
    assert_eq!(rt; table.word(9), u32::MAX);
    assert_eq!(rt; table.slot_of(9), Some(2));
    assert_eq!(rt; table.slot_of(10), None);
    assert_eq!(rt; table.len(), 3);
    Ok(())
}
