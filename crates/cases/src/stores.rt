// One table of cases for every kind of store.
use crate::step::Step;
use board::Board;
use refusal::Refusal;
use roll::Roll;
use std::alloc::Global;
use std::process::Abort;
use std::test::Fail;
use store::Store;
use store::any::{clear, count};
use store::fault::{Outside, StoreFault};
use store::triple::Triple;

const OUT: Result<(), StoreFault> = Err(StoreFault::OutOfRange);

fn triple(holder: u8, target: u8, rights: u8) -> Triple {
    Triple {
        holder,
        target,
        rights,
    }
}

// What each step is answered and how many members there are then, at size 1 and at larger sizes. `last` is the largest entity
// number, `size` the smallest that is none. The four triples differ in their rights, so that they are four at size 1 too.
fn steps(last: u8, size: u8) -> [(Step, Result<(), StoreFault>, u32, u32); 20] {
    [
        (Step::Put(0, last, 0), Ok(()), 1, 1),
        (Step::Put(last, 0, 31), Ok(()), 2, 2),
        (Step::Put(last, last, 7), Ok(()), 3, 3),
        (Step::Put(0, 0, 18), Ok(()), 4, 4),
        (Step::Put(last, 0, 31), Ok(()), 4, 4),
        (Step::Put(size, 0, 0), OUT, 4, 4),
        (Step::Put(0, size, 0), OUT, 4, 4),
        (Step::Put(0, 0, 32), OUT, 4, 4),
        (Step::Take(0, last, 1), Ok(()), 4, 4),
        (Step::Take(size, 0, 0), OUT, 4, 4),
        (Step::Take(0, size, 0), OUT, 4, 4),
        (Step::Take(0, 0, 32), OUT, 4, 4),
        (Step::Take(last, last, 7), Ok(()), 3, 3),
        (Step::Take(last, last, 7), Ok(()), 3, 3),
        (Step::Put(last, last, 9), Ok(()), 4, 4),
        (Step::Drop(size), OUT, 4, 4),
        (Step::Drop(255), OUT, 4, 4),
        (Step::Drop(last), Ok(()), 0, 2),
        (Step::Drop(last), Ok(()), 0, 2),
        (Step::Put(last, 0, 31), Ok(()), 1, 3),
    ]
}

// Holds its store by value, as a table does, and knows the size and the limit that it should have.
#[derive(Drop)]
struct Subject<'a, R: Abort, S: Store + Drop> {
    rt: &'a R,
    store: S,
    size: u8,
    limit: u32,
}

impl<'a, R: Abort, S: Store + Drop> Subject<'a, R, S> {
    fn new(rt: &'a R, store: S, size: u8, limit: u32) -> Subject<'a, R, S> {
        Subject {
            rt,
            store,
            size,
            limit,
        }
    }

    fn ask(&mut self, step: Step) -> Result<(), StoreFault> {
        step.ask(&mut self.store)
    }

    // Spare and count agree, and size and limit are what they were.
    fn check(&self, members: u32) {
        let rt = self.rt;
        assert_eq!(rt; self.store.size(), self.size);
        assert_eq!(rt; self.store.limit(), self.limit);
        assert_eq!(rt; count(&self.store), members);
        assert_eq!(rt; self.store.spare() == 0, members == self.limit);
        assert!(rt; self.store.spare() <= self.limit.saturating_sub(members));
    }

    // Begins with an empty store that has room for four.
    fn follow_steps(&mut self) {
        let rt = self.rt;
        let size = self.size;
        let last = size.saturating_sub(1);
        self.check(0);
        for (step, answer, single, several) in steps(last, size) {
            assert_eq!(rt; self.ask(step), answer);
            self.check(if size == 1 { single } else { several });
        }
        let top = 1 << 31;
        assert_eq!(rt; self.store.word(last, 0), top);
        assert_eq!(rt;
            self.store.word(0, 0),
            if size == 1 { top } else { 1 << 18 }
        );
        assert_eq!(rt; self.store.word(0, last), if size == 1 { top } else { 1 });
        assert_eq!(rt; self.store.word(size, 0), 0);
        assert_eq!(rt; self.store.word(0, size), 0);
        assert_eq!(rt; self.store.word(255, 255), 0);
        clear(&mut self.store);
        self.check(0);
    }

    // At size 1 there are 32 triples, and the store has room for all of them.
    fn fill_up(&mut self) {
        let rt = self.rt;
        for rights in 0..32 {
            self.check(u32::from(rights));
            assert_eq!(rt; self.ask(Step::Put(0, 0, rights)), Ok(()));
        }
        self.check(32);
        assert_eq!(rt; self.store.word(0, 0), u32::MAX);
        assert_eq!(rt; self.ask(Step::Put(0, 0, 5)), Ok(()));
        assert_eq!(rt; self.ask(Step::Take(0, 0, 5)), Ok(()));
        self.check(31);
        assert_eq!(rt; self.ask(Step::Put(0, 0, 5)), Ok(()));
        self.check(32);
    }

    // A store over memory that does not suit it.
    fn check_nothing(&mut self) {
        let rt = self.rt;
        self.check(0);
        assert_eq!(rt; self.store.word(0, 0), 0);
        assert_eq!(rt; self.ask(Step::Put(0, 0, 0)), OUT);
        assert_eq!(rt; self.ask(Step::Take(0, 0, 0)), OUT);
        assert_eq!(rt; self.ask(Step::Drop(0)), OUT);
        clear(&mut self.store);
        self.check(0);
    }
}

// Lends memory for a store of each size, full of what was there before, and tells the limit that the store should have.
fn over_memory<T: Copy + Drop, F: Fn(u8, &mut [T], u32)>(
    alloc: Global,
    old: T,
    sizes: &[(u8, usize, u32)],
    test: F,
) -> Result<(), Fail>
    requires { F.IsAlwaysCallable test }
{
    for (size, cells, limit) in sizes {
        let mut memory = vec![in alloc; old; *cells]?;
        test(*size, memory.as_mut_slice(), *limit);
    }
    Ok(())
}

// One test for each kind of store; all but the making is shared.
#[test]
fn steps_on_boards(rt: HostRuntime) -> Result<(), Fail> {
    let sizes: [(u8, usize, u32); 4] = [
        (1, 1, 32),
        (2, 4, 128),
        (127, 16129, 516128),
        (128, 16384, 524288),
    ];
    over_memory(rt.alloc(), u32::MAX, &sizes, |size, words, limit| {
        Subject::new(&rt, Board::new(size, words), size, limit).follow_steps();
    })
}

#[test]
fn steps_on_rolls(rt: HostRuntime) -> Result<(), Fail> {
    let sizes: [(u8, usize, u32); 4] = [(1, 4, 4), (2, 5, 5), (127, 4095, 4095), (128, 4096, 4096)];
    over_memory(
        rt.alloc(),
        triple(0, 0, 0),
        &sizes,
        |size, records, limit| {
            Subject::new(&rt, Roll::new(size, records), size, limit).follow_steps();
        },
    )
}

#[test]
fn steps_on_lent_stores(rt: HostRuntime) {
    let mut words = [0; 4];
    let mut board = Board::new(2, &mut words);
    Subject::new(&rt, &mut board, 2, 128).follow_steps();
    let mut records = [triple(0, 0, 0); 4];
    let mut roll = Roll::new(1, &mut records);
    Subject::new(&rt, &mut roll, 1, 4).follow_steps();
}

#[test]
fn full_stores(rt: HostRuntime) {
    let mut words = [7; 1];
    Subject::new(&rt, Board::new(1, &mut words), 1, 32).fill_up();
    let mut records = [triple(0, 0, 3); 32];
    Subject::new(&rt, Roll::new(1, &mut records), 1, 32).fill_up();
}

// A full roll refuses what is new to it, and nothing else; what is freed is used again.
#[test]
fn full_roll(rt: HostRuntime) {
    let mut records = [triple(9, 9, 99); 3];
    let mut subject = Subject::new(&rt, Roll::new(2, &mut records), 2, 3);
    let cases: [(Step, Result<(), StoreFault>, u32); 14] = [
        (Step::Put(0, 0, 1), Ok(()), 1),
        (Step::Put(0, 1, 1), Ok(()), 2),
        (Step::Put(1, 0, 1), Ok(()), 3),
        (Step::Put(1, 1, 1), Err(StoreFault::Full), 3),
        (Step::Put(0, 0, 2), Err(StoreFault::Full), 3),
        (Step::Put(0, 1, 1), Ok(()), 3),
        (Step::Put(2, 0, 1), OUT, 3),
        (Step::Take(1, 1, 1), Ok(()), 3),
        (Step::Put(1, 1, 1), Err(StoreFault::Full), 3),
        (Step::Take(0, 0, 1), Ok(()), 2),
        (Step::Put(1, 1, 1), Ok(()), 3),
        (Step::Drop(1), Ok(()), 1),
        (Step::Put(1, 1, 31), Ok(()), 2),
        (Step::Put(1, 1, 0), Ok(()), 3),
    ];
    for (step, answer, members) in cases {
        assert_eq!(&rt; subject.ask(step), answer);
        subject.check(members);
    }
    assert_eq!(&rt; subject.store.word(0, 1), 2);
    assert_eq!(&rt; subject.store.word(1, 1), 0x8000_0001);
    assert_eq!(&rt; subject.store.word(1, 0), 0);
}

// Which memory suits a store of which size. Memory that does not is left as it was.
fn memory_for<
    T: Copy + PartialEq + Drop,
    C: Fn(u8, &[T]) -> Result<(), Outside>,
    F: Fn(u8, &mut [T]),
>(
    rt: &impl Abort,
    alloc: Global,
    old: T,
    cases: &[(u8, usize, Result<(), Outside>)],
    check: C,
    unsuited: F,
) -> Result<(), Fail>
    requires check { C.IsAlwaysCallable check }
    requires unsuited { F.IsAlwaysCallable unsuited }
{
    for (size, cells, expected) in cases {
        let mut memory = vec![in alloc; old; *cells]?;
        assert_eq!(rt; check(*size, memory.as_slice()), *expected);
        if expected.is_err() {
            unsuited(*size, memory.as_mut_slice());
            assert!(rt; memory.iter().all(|cell| *cell == old));
        }
    }
    Ok(())
}

#[test]
fn memory_for_boards(rt: HostRuntime) -> Result<(), Fail> {
    let cases: [(u8, usize, Result<(), Outside>); 12] = [
        (1, 1, Ok(())),
        (2, 4, Ok(())),
        (127, 16129, Ok(())),
        (128, 16384, Ok(())),
        (0, 0, Err(Outside)),
        (0, 1, Err(Outside)),
        (129, 16641, Err(Outside)),
        (255, 65025, Err(Outside)),
        (1, 0, Err(Outside)),
        (1, 2, Err(Outside)),
        (128, 16383, Err(Outside)),
        (128, 16385, Err(Outside)),
    ];
    memory_for(
        &rt,
        rt.alloc(),
        0x1234_5678,
        &cases,
        Board::check,
        |size, words| {
            Subject::new(&rt, Board::new(size, words), 0, 0).check_nothing();
        },
    )
}

#[test]
fn memory_for_rolls(rt: HostRuntime) -> Result<(), Fail> {
    let cases: [(u8, usize, Result<(), Outside>); 9] = [
        (1, 1, Ok(())),
        (1, 4096, Ok(())),
        (128, 1, Ok(())),
        (128, 4096, Ok(())),
        (0, 1, Err(Outside)),
        (129, 1, Err(Outside)),
        (255, 4096, Err(Outside)),
        (1, 0, Err(Outside)),
        (128, 4097, Err(Outside)),
    ];
    memory_for(
        &rt,
        rt.alloc(),
        triple(0, 0, 1),
        &cases,
        Roll::check,
        |size, records| {
            Subject::new(&rt, Roll::new(size, records), 0, 0).check_nothing();
        },
    )
}

#[test]
fn numbers_of_faults(rt: HostRuntime) {
    assert_eq!(rt; u8::from(Refusal::from(StoreFault::OutOfRange)), 2);
    assert_eq!(rt; u8::from(Refusal::from(StoreFault::Full)), 8);
    assert_eq!(rt; u8::from(Refusal::from(Outside)), 2);
}
