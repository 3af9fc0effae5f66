//! Collections over a heap.
use page_heap::Heap;
use std::collections::BTreeMap;
use std::test::Fail;

#[test]
fn blocks_are_handed_out_again(rt: HostRuntime) -> Result<(), Fail> {
    let heap = Heap::over(Vec::from_elem(rt.alloc(), 0u128, 1024)?.leak());
    for round in 0..50u64 {
        let mut squares = Vec::new(&heap);
        let mut boxes = BTreeMap::new(&heap);
        for n in 0..40u64 {
            squares.push(n * n)?;
            boxes.insert(n, Box::new(&heap, round)?)?;
        }
        assert_eq!(rt; (squares.last().copied(), boxes.len()), (Some(1521), 40));
    }
    Ok(())
}

#[test]
fn what_does_not_fit_is_refused(rt: HostRuntime) -> Result<(), Fail> {
    let heap = Heap::over(Vec::from_elem(rt.alloc(), 0u128, 64)?.leak());
    let whole: Result<Vec<u8, &Heap>, _> = Vec::with_capacity(&heap, 1024);
    let more: Result<Vec<u8, &Heap>, _> = Vec::with_capacity(&heap, 1);
    assert_eq!(rt; (whole.is_ok(), more.is_ok()), (true, false));
    drop(whole);
    let again: Result<Vec<u128, &Heap>, _> = Vec::with_capacity(&heap, 64);
    assert!(rt; again.is_ok());
    Ok(())
}
