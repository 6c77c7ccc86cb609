//! What a host answers, when it is made and how it is switched.
use crate::floors::{Random, alike, has_neighbours, random_host};
use host::making::Making;
use host::scan::ScanHost;
use host::sides::{Reading, Switching};
use host::table::TableHost;
use std::test::Fail;
use worked::KITE;

#[test]
fn hears_within_reach(rt: HostRuntime) -> Result<(), Fail> {
    let scan: ScanHost = KITE.host(rt.alloc())?;
    assert_eq!(rt; scan.count(), 4);
    assert!(rt; has_neighbours(&scan, 0, &[1, 2]));
    assert!(rt; has_neighbours(&scan, 1, &[0, 2]));
    assert!(rt; has_neighbours(&scan, 2, &[0, 1, 3]));
    assert!(rt; has_neighbours(&scan, 3, &[2]));
    assert!(rt; has_neighbours(&scan, 4, &[]));
    Ok(())
}

#[test]
fn mends_the_other_end(rt: HostRuntime) -> Result<(), Fail> {
    let mut table: TableHost = KITE.host(rt.alloc())?;
    table.withdraw(2);
    assert!(rt; has_neighbours(&table, 0, &[1]));
    assert!(rt; has_neighbours(&table, 2, &[]));
    assert!(rt; has_neighbours(&table, 3, &[]));
    table.restore(2);
    assert!(rt; has_neighbours(&table, 2, &[0, 1, 3]));
    assert!(rt; has_neighbours(&table, 3, &[2]));
    Ok(())
}

#[test]
fn refuses_a_reach(rt: HostRuntime) -> Result<(), Fail> {
    assert!(rt; ScanHost::make(KITE.map(rt.alloc())?, 46_340).is_ok());
    assert!(rt; TableHost::make(KITE.map(rt.alloc())?, 1).is_ok());
    let Err(unmade) = ScanHost::make(KITE.map(rt.alloc())?, 46_341) else {
        return Err(Fail::new("46,341 was taken"));
    };
    assert_eq!(rt; u8::from(unmade.why), 31);
    assert_eq!(rt; unmade.map.count(), 4);
    let Err(unmade) = TableHost::make(unmade.map, 0) else {
        return Err(Fail::new("0 was taken"));
    };
    assert_eq!(rt; u8::from(unmade.why), 31);
    Ok(())
}

#[test]
fn restores_every_answer(rt: HostRuntime) -> Result<(), Fail> {
    let scan: ScanHost = random_host(rt.alloc(), 7, 90)?;
    let mut table: TableHost = random_host(rt.alloc(), 7, 90)?;
    assert!(rt; scan.count() > 40);
    for i in 0..=64 {
        table.withdraw(i);
        assert_eq!(rt; alike(&scan, &table), i >= scan.count());
        table.restore(i);
        assert!(rt; alike(&scan, &table));
    }
    Ok(())
}

#[test]
fn answers_alike(rt: HostRuntime) -> Result<(), Fail> {
    for seed in 0..6 {
        let mut random = Random::new(seed);
        let reach = 20 + u16::from(random.next(127));
        let mut scan: ScanHost = random_host(rt.alloc(), seed, reach)?;
        let mut table: TableHost = random_host(rt.alloc(), seed, reach)?;
        for _ in 0..40 {
            let i = random.next(127);
            if random.next(1) == 0 {
                scan.withdraw(i);
                table.withdraw(i);
            } else {
                scan.restore(i);
                table.restore(i);
            }
            assert!(rt; alike(&scan, &table));
        }
    }
    Ok(())
}
