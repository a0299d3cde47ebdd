ghost use Rattle.std.specs.Prelude.{◌≡◌, length};

use super::*;
use std::test::Fail;

#[test]
fn a_page_is_home_or_away(rt: HostRuntime) -> Result<(), Fail> {
    let mut memory = GuestMemory::new(rt.alloc());
    assert_eq!(rt; memory.add_page(5), Ok(()));
    assert_eq!(rt; memory.add_page(5), Err(AddError::Known));
    assert!(rt; memory.is_home(5));
    assert!(rt; !memory.is_home(6));

    let mut page = memory.take(5).expect(&rt, "page 5 is home");
    assert_eq!(rt; page.number, 5);
    assert!(rt; memory.take(5).is_none());
    assert!(rt; !memory.is_home(5));

    page.set(4095, 7);
    assert!(rt; memory.give(page).is_ok());
    let page = memory.take(5).expect(&rt, "page 5 is home again");
    assert_eq!(rt; page.get(4095), 7);
    Ok(())
}

#[test]
fn a_page_that_is_not_away_is_handed_back(rt: HostRuntime) -> Result<(), Fail> {
    let mut memory = GuestMemory::new(rt.alloc());
    memory.add_page(5)?;
    for number in [5, 6] {
        let page = Page::make_zero(rt.alloc(), number)?;
        assert!(rt; memory.give(page).is_err(), "page {number}");
    }
    Ok(())
}

// A store that keeps the copies of the trait.
#[derive(Drop)]
struct Word {
    bytes: [u8; 4],
}

impl Store for Word {
    ghost Rest = { Unit {0} };

    ghost bytes_of = { λ word. word.bytes };

    ghost rest_of = { λ _. tt };

    fn size(&self) -> u32 {
        4
    }

    fn get(&self, i: u32) -> u8 {
        self.bytes[i as usize]
    }

    fn set(&mut self, i: u32, b: u8) {
        self.bytes[i as usize] = b;
    }
}

#[test]
fn runs_of_bytes_are_copied(rt: HostRuntime) -> Result<(), Fail> {
    let mut word = Word {
        bytes: [1, 2, 3, 4],
    };
    let mut copied = [0; 2];
    word.copy_out(1, &mut copied);
    assert_eq!(rt; copied, [2, 3]);
    word.copy_in(2, &[8, 9]);
    assert_eq!(rt; word.bytes, [1, 2, 8, 9]);

    let mut page = Page::make_zero(rt.alloc(), 0)?;
    page.copy_in(4094, &[8, 9]);
    page.copy_out(4094, &mut copied);
    assert_eq!(rt; copied, [8, 9]);
    assert_eq!(rt; page.as_slice()[4093], 0);
    Ok(())
}
