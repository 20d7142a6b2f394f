//! A hundred random histories, in which what is looked up is compared with what a walk over all
//! rows finds.

use crate::bench::Bench;
use crate::index::agrees;
use std::alloc::{AllocError, Global};
use std::test::Fail;

const WORDS: [&[u8]; 32] = [
    b"put:a",
    b"remove:a",
    b"look:a",
    b"ask:a",
    b"put:b",
    b"remove:b",
    b"look:b",
    b"ask:b",
    b"put:a",
    b"remove:a",
    b"look:a",
    b"ask:a",
    b"put:b",
    b"remove:b",
    b"look:b",
    b"ask:b",
    b"undo:1",
    b"undo:2",
    b"undo:3",
    b"undo:4",
    b"undo:5",
    b"undo:6",
    b"undo:7",
    b"undo:8",
    b"redo:1",
    b"redo:2",
    b"redo:3",
    b"redo:4",
    b"redo:5",
    b"redo:6",
    b"redo:7",
    b"redo:8",
];

fn next(random: u32) -> u32 {
    random.wrapping_mul(1_664_525).wrapping_add(1_013_904_223)
}

/// The word that a random number chooses.
fn word(random: u32) -> &'static [u8] {
    WORDS[(random >> 27) as usize]
}

/// Twelve random calls, and after how many of them a walk finds the same.
fn play(alloc: Global, bench: &mut Bench, random: &mut u32) -> Result<u32, AllocError> {
    let mut agreed = 0u32;
    let mut said = Vec::new(alloc);
    for _ in 0..12 {
        *random = next(*random);
        bench.answer(alloc, word(*random), &mut said)?;
        agreed = agreed.wrapping_add(u32::from(agrees(alloc, &bench.history)?));
    }
    Ok(agreed)
}

fn played(alloc: Global, random: &mut u32) -> Result<u32, AllocError> {
    let mut bench = Bench::new(alloc, false)?;
    play(alloc, &mut bench, random)
}

#[test]
fn what_is_looked_up_is_what_a_walk_finds(rt: HostRuntime) -> Result<(), Fail> {
    let mut random = 1;
    for _ in 0..100 {
        assert_eq!(rt; played(rt.alloc(), &mut random)?, 12);
    }
    Ok(())
}
