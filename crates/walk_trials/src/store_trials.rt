// Stores asked directly.
use crate::sheets::{REGISTERED, spelt};
use formula::Comparison;
use refusal::Refusal;
use register::RegisterStore;
use std::test::Fail;
use store::Store;
use store::open::OpenStore;
use withheld::layer::Withheld;

#[test]
fn open_rows(rt: HostRuntime) -> Result<(), Fail> {
    let mut store = OpenStore::new(&spelt(REGISTERED)?);
    assert!(rt; store.fields() == 2 && store.count(0) == 1024 && store.count(2) == 0);
    assert!(rt; store.value(0, 1023) == Some(1023) && store.value(0, 1024).is_none());
    assert!(rt; store.keep(2, Comparison::Equal, 0) == Err(Refusal::Outside));
    assert!(rt; store.keep(0, Comparison::Equal, 1024) == Err(Refusal::Outside));
    assert!(rt; store.keep(1, Comparison::Less, 0).is_ok());
    assert!(rt; store.is_empty() && store.count(0) == 0);
    store.restart();
    assert!(rt; !store.is_empty() && store.count(1) == 1024);
    Ok(())
}

#[test]
fn register_rows(rt: HostRuntime) -> Result<(), Fail> {
    let rows = [1, 0, 1, 0, 2, 5, 2000, 1, 7];
    let store = RegisterStore::new(&spelt(REGISTERED)?, &rows);
    assert!(rt; store.count(0) == 2 && store.value(0, 1) == Some(2));
    assert!(rt; store.count(1) == 2 && store.value(1, 1) == Some(5));
    Ok(())
}

#[test]
fn withheld_pairs(rt: HostRuntime) -> Result<(), Fail> {
    let rows = [1, 0, 1, 0, 2, 5];
    let mut layer = Withheld::new(RegisterStore::new(&spelt(REGISTERED)?, &rows));
    assert!(rt; layer.withhold(1, 5).is_ok());
    assert!(rt; layer.count(0) == 1 && layer.value(0, 0) == Some(1));
    for _ in 1..32 {
        assert!(rt; layer.withhold(1, 5).is_ok());
    }
    assert!(rt; layer.withhold(1, 5) == Err(Refusal::PairsFull));
    assert!(rt; layer.withhold(2, 5) == Err(Refusal::Outside));
    Ok(())
}
