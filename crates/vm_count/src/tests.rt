ghost use Rattle.std.specs.Prelude.{◌≡◌, ◌++◌, [], ◌∷◌, false, true, Some, slice_get, OnOk};

use super::*;
use std::alloc::{AllocError, Global};
use std::marker::{Brand, PhantomData};
use std::process::Abort;
use std::sync::{Mutex, Wait};
use std::test::Fail;
use std::thread::{Threads, join};

// The holder adds two entries.
fn add_two(count: &Count<u64, u64>, mut holder: CountPass<u64, u64>) -> CountPass<u64, u64>
    requires count { holder.table ≡ count.now }
    requires holder { (holder.holds ≡ true) × (holder.entries ≡ []) }
    ensures { result ≡ record holder { entries = 10 ∷ 20 ∷ [] } }
{
    count.add(&mut holder, &10);
    count.add(&mut holder, &20);
    holder
}

// A pass is split, the two look at the word one after the other, and are joined.
fn watch(count: &Count<u64, u64>, mut pass: CountPass<u64, u64>) -> (u64, u64, CountPass<u64, u64>)
    requires count { pass.table ≡ count.now }
    ensures { result.2 ≡ pass }
{
    let mut other = count.split(&mut pass);
    let first = count.load(&mut other);
    let second = count.load(&mut pass);
    count.join(&mut pass, other);
    (first, second, pass)
}

#[test]
fn one_thread_adds_and_another_looks(rt: HostRuntime) -> Result<(), Fail> {
    let (count, mut holder) = Count::new(rt.alloc(), &7)?;
    let pass = count.split(&mut holder);
    let (mut holder, (first, second, pass)) = join(
        &rt,
        || add_two(&count, holder),
        || watch(&count, pass),
    );
    assert!(rt;
        first <= second && second <= 2,
        "the word never falls: {first}, {second}"
    );
    count.join(&mut holder, pass);
    assert_eq!(rt; count.load(&mut holder), 2);
    Ok(())
}

// Which count it is.
trait Naming {
    ghost use Rattle.atomic_table.specs.Seated.{TableId};

    ghost table: { TableId };
}

impl Naming for Brand {
    ghost use Rattle.vm_count.specs.Pass.{no_table};

    ghost table = { no_table };
}

// The count, beside the lock.
#[derive(Drop)]
struct Board<J: Naming> {
    count: Count<u64, u64>,
    of: PhantomData<J>,
    ghost named: { count ≡ J.table },
}

// The lock's value: the holder's pass, and the entries themselves.
#[derive(Drop)]
struct Desk<J: Naming> {
    holder: CountPass<u64, u64>,
    out: Vec<u64>,
    of: PhantomData<J>,
    ghost named: { holder.table ≡ J.table },
    ghost holds: { holder.holds ≡ true },
    ghost same: { holder.entries ≡ out.items },
}

// What goes out for an entry, and comes back.
#[derive(Drop)]
struct Ticket<J: Naming> {
    pass: CountPass<u64, u64>,
    place: usize,
    entry: u64,
    of: PhantomData<J>,
    ghost named: { pass.table ≡ J.table },
    ghost guest: { pass.holds ≡ false },
    ghost known: { slice_get pass.entries place ≡ Some entry },
}

impl<J: Naming> Desk<J> {
    #[tactic(auto, using(crate::proofs::Prefixes::get_last))]
    fn put(&mut self, board: &Board<J>, entry: u64) -> Result<Ticket<J>, AllocError>
        ensures { OnOk result (self.new.out.items ≡ self.old.out.items ++ entry ∷ []) }
    {
        self.out.reserve(1)?;
        let place = self.out.len();
        board.count.add(&mut self.holder, &entry);
        self.out.push_reserved(entry);
        let pass = board.count.split(&mut self.holder);
        Ok(Ticket {
            pass,
            place,
            entry,
            of: PhantomData,
        })
    }

    // The entry still stands at its place.
    #[tactic(auto, using(crate::proofs::Prefixes::prefix_get))]
    fn give_back(&mut self, board: &Board<J>, ticket: Ticket<J>)
        ensures same { self.new.out.items ≡ self.old.out.items }
        ensures found { slice_get self.new.out.items ticket.place ≡ Some ticket.entry }
    {
        board.count.join(&mut self.holder, ticket.pass);
    }
}

fn out_and_back<J: Naming>(
    rt: &impl Wait,
    board: &Board<J>,
    desk: &Mutex<Desk<J>>,
    entry: u64,
) -> Result<(), AllocError> {
    let ticket = desk.lock(rt).put(board, entry)?;
    desk.lock(rt).give_back(board, ticket);
    Ok(())
}

fn two_tickets<J: Naming + Send + Sync, R: Threads + Wait + Abort + Sync>(
    rt: &R,
    alloc: Global,
    count: Count<u64, u64>,
    holder: CountPass<u64, u64>,
) -> Result<(), Fail>
    requires named { count ≡ J.table }
    requires holder { (holder.table ≡ J.table) × (holder.holds ≡ true) × (holder.entries ≡ []) }
{
    let board = Board::<J> {
        count,
        of: PhantomData,
    };
    let desk = Mutex::new(Desk::<J> {
        holder,
        out: Vec::new(alloc),
        of: PhantomData,
    });
    let (one, other) = join(
        rt,
        || out_and_back(rt, &board, &desk, 1),
        || out_and_back(rt, &board, &desk, 2),
    );
    one?;
    other?;
    assert_eq!(rt; desk.into_inner().out.len(), 2);
    Ok(())
}

#[test]
fn a_ticket_is_known_under_the_lock(rt: HostRuntime) -> Result<(), Fail> {
    let (count, holder) = Count::new(rt.alloc(), &7)?;
    two_tickets::<Brand, _>(&rt, rt.alloc(), count, holder)
}
