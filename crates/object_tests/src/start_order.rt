//! An adapter that is started and stopped.
use hca_pages::{Hca, HcaFault, PAGE_SIZE, Phase};
use std::test::Fail;
use verbs_types::PageUse;

#[test]
fn adapter_starts_and_stops(rt: HostRuntime) -> Result<(), Fail> {
    let mut pages = [0u64; 88];
    for k in 0..88 {
        pages[k] = k as u64 * PAGE_SIZE;
    }
    let mut hca = Hca::new(rt.alloc())?;
    assert_eq!(rt; hca.enable(), Ok(()));
    assert_eq!(rt; hca.query(PageUse::Boot), Ok(8));
    assert_eq!(rt; hca.give(&pages[..8]), Ok(()));
    assert_eq!(rt; hca.query(PageUse::Init), Ok(80));
    assert_eq!(rt;
        hca.init(),
        Err(HcaFault::NoPages {
            needed: 88,
            held: 8
        })
    );
    assert_eq!(rt; hca.give(&pages[8..]), Ok(()));
    assert_eq!(rt; hca.init(), Ok(()));
    assert_eq!(rt; hca.phase(), Phase::Running);
    assert_eq!(rt; hca.teardown(), Ok(()));
    assert_eq!(rt; hca.disable(), Err(HcaFault::BadSystemState));
    let mut back = [0u64; 88];
    assert_eq!(rt; hca.take_back(88, &mut back), Ok(()));
    assert_eq!(rt; back, pages);
    assert_eq!(rt; hca.disable(), Ok(()));
    Ok(())
}

#[test]
fn refusals_have_their_status(rt: HostRuntime) -> Result<(), Fail> {
    let mut hca = Hca::new(rt.alloc())?;
    assert_eq!(rt; hca.give(&[0]), Err(HcaFault::BadSystemState));
    assert_eq!(rt; hca.enable(), Ok(()));
    let doubled = HcaFault::BadParameter { page: 0x3000 };
    assert_eq!(rt; hca.give(&[0x3000, 0x2000, 0x3000, 7]), Err(doubled));
    assert_eq!(rt; hca.give(&[0x3000, 0x2000, 0x1000]), Ok(()));
    let mut back = [7u64; 88];
    assert_eq!(rt; hca.take_back(2, &mut back), Ok(()));
    assert_eq!(rt; &back[..3], [0x2000, 0x1000, 7].as_slice());
    assert_eq!(rt; hca.pages(), [0x3000].as_slice());
    let faults = [
        (HcaFault::BadSystemState, 0x04),
        (doubled, 0x03),
        (HcaFault::Limit { pages: 89 }, 0x08),
        (
            HcaFault::NoPages {
                needed: 88,
                held: 8,
            },
            0x0f,
        ),
    ];
    for (fault, status) in faults {
        assert_eq!(rt; fault.status(), status);
    }
    Ok(())
}
