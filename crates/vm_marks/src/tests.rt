use super::*;
use std::test::Fail;

// What is done with marks, and which numbers are marked then.
#[test]
fn marks_stand_in_order(rt: HostRuntime) -> Result<(), Fail> {
    let mut marks = Marks::new(rt.alloc());
    assert!(rt; !marks.is_marked(0));
    marks.reserve(5)?;
    marks.push();
    marks.push();
    marks.push();
    marks.push();
    marks.push();
    assert_eq!(rt; marks.count(), 5);
    assert!(rt; marks.marked().is_empty());
    let steps: [(u32, bool, &[u32]); 9] = [
        (3, true, &[3]),
        (1, true, &[1, 3]),
        (4, true, &[1, 3, 4]),
        (3, true, &[1, 3, 4]),
        (0, false, &[1, 3, 4]),
        (1, false, &[3, 4]),
        (0, true, &[0, 3, 4]),
        (4, false, &[0, 3]),
        (2, true, &[0, 2, 3]),
    ];
    for (number, marked, want) in steps {
        assert!(rt; (number as usize) < marks.count());
        marks.set(number, marked);
        assert_eq!(rt; marks.marked(), want);
        assert_eq!(rt; marks.is_marked(number), marked);
    }
    Ok(())
}
